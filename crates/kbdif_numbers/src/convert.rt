// Numbers back to an event, for an encode.
ghost use Rattle.std.specs.Prelude.{◌≡◌};
ghost use Rattle.kbdif_numbers.specs.Numbers.{touch_of, event_of};

use crate::RingNumbers;
use kbdif_events::{
    RingEvent, XENKBD_MT_EV_DOWN, XENKBD_MT_EV_MOTION, XENKBD_MT_EV_ORIENT, XENKBD_MT_EV_SHAPE,
    XENKBD_MT_EV_SYN, XENKBD_MT_EV_UP, XENKBD_TYPE_KEY, XENKBD_TYPE_MOTION, XENKBD_TYPE_MTOUCH,
    XENKBD_TYPE_POS,
};

#[tactic(auto, unfolding(crate::specs::Numbers::touch_of, kbdif_decode::specs::Decode::lookup))]
fn touch_of(numbers: RingNumbers) -> RingEvent
    ensures { result ≡ touch_of numbers }
{
    let RingNumbers {
        subtype,
        contact,
        x,
        y,
        major,
        minor,
        orientation,
        ..
    } = numbers;
    match subtype {
        XENKBD_MT_EV_DOWN => RingEvent::TouchDown { contact, x, y },
        XENKBD_MT_EV_UP => RingEvent::TouchUp { contact },
        XENKBD_MT_EV_MOTION => RingEvent::TouchMotion { contact, x, y },
        XENKBD_MT_EV_SYN => RingEvent::TouchSyn { contact },
        XENKBD_MT_EV_SHAPE => RingEvent::TouchShape {
            contact,
            major,
            minor,
        },
        XENKBD_MT_EV_ORIENT => RingEvent::TouchOrient {
            contact,
            orientation,
        },
        _ => RingEvent::Unknown,
    }
}

impl From<RingNumbers> for RingEvent {
    ghost from_gives = { λ numbers event. event ≡ event_of numbers };

    #[tactic(auto, unfolding(crate::specs::Numbers::event_of, kbdif_decode::specs::Decode::lookup))]
    fn from(numbers: RingNumbers) -> RingEvent {
        let RingNumbers {
            kind,
            pressed,
            x,
            y,
            z,
            keycode,
            ..
        } = numbers;
        match kind {
            XENKBD_TYPE_MOTION => RingEvent::Motion { x, y, z },
            XENKBD_TYPE_KEY => RingEvent::Key { pressed, keycode },
            XENKBD_TYPE_POS => RingEvent::Pos { x, y, wheel: z },
            XENKBD_TYPE_MTOUCH => touch_of(numbers),
            _ => RingEvent::Unknown,
        }
    }
}
