// The events of the Xen keyboard ring, and the 40 bytes that stand for them.
#![tactic(auto)]

ghost use Rattle.std.specs.Prelude.{◌≡◌, ◌+◌, ◌≤◌, ◌<◌, cond, [], ◌∷◌, ◌++◌, length};
ghost use Rattle.copying.specs.Copying.{overwrite};
ghost use Rattle.words.specs.Words.{u32_bytes};
ghost use Rattle.kbdif_events.specs.Types.{xenkbd_type_key, xenkbd_type_mtouch};
ghost use Rattle.kbdif_events.specs.Event.{event_length, i32_bytes, known, padded, words_bytes, event_bytes};

use signed::{i16_to_bits, i32_to_bits as bits};

pub const EVENT_LENGTH: usize = 40;

// The bytes that stand for one event.
pub type EventBytes = [u8; EVENT_LENGTH];

// Types of an event. They are numbers, and not an enum, since they are those of Xen's header, and C gives and gets them.
pub const XENKBD_TYPE_MOTION: u8 = 1;

pub const XENKBD_TYPE_KEY: u8 = 3;

pub const XENKBD_TYPE_POS: u8 = 4;

pub const XENKBD_TYPE_MTOUCH: u8 = 5;

// Subtypes of a touch.
pub const XENKBD_MT_EV_DOWN: u8 = 0;

pub const XENKBD_MT_EV_UP: u8 = 1;

pub const XENKBD_MT_EV_MOTION: u8 = 2;

pub const XENKBD_MT_EV_SYN: u8 = 3;

pub const XENKBD_MT_EV_SHAPE: u8 = 4;

pub const XENKBD_MT_EV_ORIENT: u8 = 5;

#[derive(Clone, Copy)]
pub enum RingEvent {
    Motion { x: i32, y: i32, z: i32 },
    Key { pressed: bool, keycode: u32 },
    Pos { x: i32, y: i32, wheel: i32 },
    TouchDown { contact: u8, x: i32, y: i32 },
    TouchUp { contact: u8 },
    TouchMotion { contact: u8, x: i32, y: i32 },
    TouchSyn { contact: u8 },
    TouchShape { contact: u8, major: u32, minor: u32 },
    TouchOrient { contact: u8, orientation: i16 },
    // Of another type or subtype. It is an event as the others are, since a take answers it.
    Unknown,
}

// The words of an event's first sixteen bytes. The rest are zero.
#[derive(Clone, Copy)]
struct EventWords {
    head: u32,
    first: u32,
    second: u32,
    third: u32,
}

fn all_words(kind: u8, detail: u8, contact: u8, first: u32, second: u32, third: u32) -> EventWords
    ensures { words_bytes result ≡ padded (kind ∷ detail ∷ contact ∷ []) 4 (u32_bytes first ++ (u32_bytes second ++ u32_bytes third)) }
{
    EventWords {
        head: u32::from_le_bytes([kind, detail, contact, 0]),
        first,
        second,
        third,
    }
}

// A motion or a position.
fn pointer_words(kind: u8, x: i32, y: i32, z: i32) -> EventWords
    ensures { words_bytes result ≡ padded (kind ∷ []) 4 (i32_bytes x ++ (i32_bytes y ++ i32_bytes z)) }
{
    all_words(kind, 0, 0, bits(x), bits(y), bits(z))
}

fn key_words(pressed: bool, keycode: u32) -> EventWords
    ensures { words_bytes result ≡ padded (xenkbd_type_key ∷ cond pressed 1 0 ∷ []) 4 (u32_bytes keycode) }
{
    all_words(XENKBD_TYPE_KEY, u8::from(pressed), 0, keycode, 0, 0)
}

fn touch_words(subtype: u8, contact: u8, first: u32, second: u32) -> EventWords
    ensures { words_bytes result ≡ padded (xenkbd_type_mtouch ∷ subtype ∷ contact ∷ []) 8 (u32_bytes first ++ u32_bytes second) }
{
    all_words(XENKBD_TYPE_MTOUCH, subtype, contact, 0, first, second)
}

// A touch that has a place.
fn place_words(subtype: u8, contact: u8, x: i32, y: i32) -> EventWords
    ensures { words_bytes result ≡ padded (xenkbd_type_mtouch ∷ subtype ∷ contact ∷ []) 8 (i32_bytes x ++ i32_bytes y) }
{
    touch_words(subtype, contact, bits(x), bits(y))
}

// Writes two words by one store, since a put that comes right after reads them by one load.
fn write_pair(out: &mut [u8], at: usize, low: u32, high: u32)
    requires { at + 8 ≤ length out.old }
    ensures { out.new ≡ overwrite out.old at (u32_bytes low ++ u32_bytes high) }
{
    words::write_u64(out, at, u64::from(low) + u64::from(high) * 4294967296);
}

impl RingEvent {
    pub fn is_known(self) -> bool
        ensures { result ≡ known self }
    {
        !matches!(self, RingEvent::Unknown)
    }

    #[tactic(auto, unfolding(crate::specs::Event::event_bytes, crate::specs::Event::layout_of))]
    fn words(self) -> EventWords
        ensures { words_bytes result ≡ event_bytes self }
    {
        match self {
            RingEvent::Motion { x, y, z } => pointer_words(XENKBD_TYPE_MOTION, x, y, z),
            RingEvent::Key { pressed, keycode } => key_words(pressed, keycode),
            RingEvent::Pos { x, y, wheel } => pointer_words(XENKBD_TYPE_POS, x, y, wheel),
            RingEvent::TouchDown { contact, x, y } => place_words(XENKBD_MT_EV_DOWN, contact, x, y),
            RingEvent::TouchUp { contact } => touch_words(XENKBD_MT_EV_UP, contact, 0, 0),
            RingEvent::TouchMotion { contact, x, y } => {
                place_words(XENKBD_MT_EV_MOTION, contact, x, y)
            }
            RingEvent::TouchSyn { contact } => touch_words(XENKBD_MT_EV_SYN, contact, 0, 0),
            RingEvent::TouchShape {
                contact,
                major,
                minor,
            } => touch_words(XENKBD_MT_EV_SHAPE, contact, major, minor),
            RingEvent::TouchOrient {
                contact,
                orientation,
            } => {
                let bits = u32::from(i16_to_bits(orientation));
                touch_words(XENKBD_MT_EV_ORIENT, contact, bits, 0)
            }
            RingEvent::Unknown => all_words(0, 0, 0, 0, 0, 0),
        }
    }

    // Fills 40 bytes with an event. What is unknown becomes zeros, since no event has type 0.
    pub fn encode(self, out: &mut EventBytes)
        ensures { out.new ≡ event_bytes self }
    {
        // Paired in the match, two numbers would be loaded as one from an event that was stored number by number.
        let words = self.words();
        write_pair(out, 0, words.head, words.first);
        write_pair(out, 8, words.second, words.third);
        words::write_u64(out, 16, 0);
        words::write_u64(out, 24, 0);
        words::write_u64(out, 32, 0);
    }
}
