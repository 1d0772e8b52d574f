// Events of the keyboard ring for callers whose language has no enum: a kind and numbers, read from an event's 40 bytes.
#![tactic(auto)]

pub mod convert;

ghost use Rattle.std.specs.Prelude.{◌≡◌, ◌+◌, ◌≤◌};
ghost use Rattle.answers.specs.Answers.{done};
ghost use Rattle.kbdif_events.specs.Event.{event_length};
ghost use Rattle.kbdif_decode.specs.Decode.{decoded, i32_at};
ghost use Rattle.kbdif_decode.specs.Form.{Form as FormOf, form_read, form_told};
ghost use Rattle.kbdif_numbers.specs.Numbers.{no_numbers, found, found_of, outcome_found};
ghost use Rattle.kbdif_numbers.specs.Found.{pointer_at, key_at, touch_at, axes_at, orientation_at, found_as};

use answers::{DONE, Refusal};
use kbdif_decode::Form;
use kbdif_events::{
    EventBytes, XENKBD_MT_EV_ORIENT, XENKBD_MT_EV_SHAPE, XENKBD_TYPE_KEY, XENKBD_TYPE_MTOUCH,
};
use kbdif_page::ContactLimit;

// An event. Numbers that its kind doesn't have are zero where a call gives it, and not looked at where a call gets it.
#[repr(C)]
#[derive(Clone, Copy)]
pub struct RingNumbers {
    pub kind: u8,
    pub subtype: u8,
    pub contact: u8,
    pub pressed: bool,
    pub x: i32,
    pub y: i32,
    pub z: i32,
    pub keycode: u32,
    pub major: u32,
    pub minor: u32,
    pub orientation: i16,
}

// What a decode or a take answers. A refusal has an event of zeros. Kept beside the Result: `thayarqo_ring_take` answers this struct.
#[repr(C)]
#[derive(Clone, Copy)]
pub struct FoundNumbers {
    pub answer: u8,
    pub event: RingNumbers,
}

// The numbers of an event that has none.
const NO_NUMBERS: RingNumbers = RingNumbers {
    kind: 0,
    subtype: 0,
    contact: 0,
    pressed: false,
    x: 0,
    y: 0,
    z: 0,
    keycode: 0,
    major: 0,
    minor: 0,
    orientation: 0,
};

// A refusal's number, with an event of zeros.
pub fn refused(number: u8) -> FoundNumbers
    ensures { result ≡ found number no_numbers }
{
    FoundNumbers {
        answer: number,
        event: NO_NUMBERS,
    }
}

// Kept apart from the other structs of C: one conversion for all would need a trait that sets the fields of each.
impl From<Result<RingNumbers, Refusal>> for FoundNumbers {
    ghost from_gives = { λ outcome result. result ≡ outcome_found outcome };

    fn from(outcome: Result<RingNumbers, Refusal>) -> FoundNumbers {
        match outcome {
            Ok(event) => FoundNumbers {
                answer: DONE,
                event,
            },
            Err(refusal) => refused(refusal.number()),
        }
    }
}

fn i32_at(bytes: &EventBytes, at: usize) -> i32
    requires { at + 4 ≤ event_length }
    ensures { result ≡ i32_at bytes.now at }
{
    signed::i32_from_bits(words::read_u32(bytes, at))
}

fn pointer_at(bytes: &EventBytes) -> RingNumbers
    ensures { result ≡ pointer_at bytes.now }
{
    RingNumbers {
        kind: bytes[0],
        x: i32_at(bytes, 4),
        y: i32_at(bytes, 8),
        z: i32_at(bytes, 12),
        ..NO_NUMBERS
    }
}

fn key_at(bytes: &EventBytes) -> RingNumbers
    ensures { result ≡ key_at bytes.now }
{
    RingNumbers {
        kind: XENKBD_TYPE_KEY,
        pressed: bytes[1] == 1,
        keycode: words::read_u32(bytes, 4),
        ..NO_NUMBERS
    }
}

fn touch_at(bytes: &EventBytes, x: i32, y: i32) -> RingNumbers
    ensures { result ≡ touch_at bytes.now x y }
{
    RingNumbers {
        kind: XENKBD_TYPE_MTOUCH,
        subtype: bytes[1],
        contact: bytes[2],
        x,
        y,
        ..NO_NUMBERS
    }
}

fn axes_at(bytes: &EventBytes) -> RingNumbers
    ensures { result ≡ axes_at bytes.now }
{
    RingNumbers {
        kind: XENKBD_TYPE_MTOUCH,
        subtype: XENKBD_MT_EV_SHAPE,
        contact: bytes[2],
        major: words::read_u32(bytes, 8),
        minor: words::read_u32(bytes, 12),
        ..NO_NUMBERS
    }
}

fn orientation_at(bytes: &EventBytes) -> RingNumbers
    ensures { result ≡ orientation_at bytes.now }
{
    RingNumbers {
        kind: XENKBD_TYPE_MTOUCH,
        subtype: XENKBD_MT_EV_ORIENT,
        contact: bytes[2],
        orientation: signed::i16_from_bits(words::read_u16(bytes, 8)),
        ..NO_NUMBERS
    }
}

// What bytes tell that have been found to be of a form. An event of an unknown type is an event without numbers.
#[tactic(auto, unfolding(crate::specs::Found::found_as))]
pub fn found_as(form: Form, bytes: &EventBytes) -> RingNumbers
    ensures { found done result ≡ found_as (form_read form) bytes.now }
{
    match form {
        Form::UnknownType => NO_NUMBERS,
        Form::Pointer => pointer_at(bytes),
        Form::KeyPress => key_at(bytes),
        Form::Place => touch_at(bytes, i32_at(bytes, 8), i32_at(bytes, 12)),
        Form::Contact => touch_at(bytes, 0, 0),
        Form::Axes => axes_at(bytes),
        Form::Orientation => orientation_at(bytes),
    }
}

// What bytes tell that were looked at for their form: bytes that are refused have no event.
#[inline(always)]
pub fn event_told(
    outcome: Result<Form, Refusal>,
    bytes: &EventBytes,
) -> Result<RingNumbers, Refusal>
    ensures { (form : FormOf) → outcome ≡ form_told form → outcome_found result ≡ found_as form bytes.now }
{
    match outcome {
        Ok(form) => Ok(found_as(form, bytes)),
        Err(refusal) => Err(refusal),
    }
}

// The event that 40 bytes hold, unknown or not, or why they are refused. In a call of its own the numbers would be written to memory
// and copied from there, which takes a third longer.
#[inline(always)]
pub fn decode(bytes: &EventBytes, limit: ContactLimit) -> Result<RingNumbers, Refusal>
    ensures { outcome_found result ≡ found_of (decoded bytes.now limit.contacts) }
{
    event_told(kbdif_decode::form_of(bytes, limit), bytes)
}
