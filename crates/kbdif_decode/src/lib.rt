// What the 40 bytes of an event of the Xen keyboard ring are, under a contact limit. A put, a take and a decode all go by it.
#![tactic(auto)]

ghost use Rattle.std.specs.Prelude.{◌≡◌, cond, ◌+◌, ◌≤◌, Ok, Err, get_or};
ghost use Rattle.answers.specs.declared.Refusal.TheVariants.{Malformed};
ghost use Rattle.kbdif_events.specs.Types.{xenkbd_type_mtouch};
ghost use Rattle.kbdif_events.specs.Event.{event_length, between};
ghost use Rattle.kbdif_decode.specs.Reserved.{u64_at, all_zero};
ghost use Rattle.kbdif_decode.specs.Decode.{decoded, may_be_put};
ghost use Rattle.kbdif_decode.specs.Form.{form_of, form_told};

use answers::Refusal;
use kbdif_events::{
    EventBytes, XENKBD_MT_EV_ORIENT, XENKBD_MT_EV_SHAPE, XENKBD_TYPE_KEY, XENKBD_TYPE_MTOUCH,
    XENKBD_TYPE_POS,
};
use kbdif_page::ContactLimit;

// Which fields an event has, and where. One of another type or subtype has none, and is an event all the same: a take answers it.
#[derive(Clone, Copy)]
pub enum Form {
    UnknownType,
    Pointer,
    KeyPress,
    Place,
    Contact,
    Axes,
    Orientation,
}

// Pressed, 0 or 1, is the second of a key's first four bytes.
const PRESSED_END: u32 = 512;

fn eight_at(bytes: &EventBytes, at: usize) -> u64
    requires { at + 8 ≤ event_length }
    ensures { result ≡ u64_at bytes.now at }
{
    u64::from_le_bytes(*bytes[at..at + 8].as_array().unwrap())
}

// No event has a field from byte 16 on.
fn tail_is_zero(bytes: &EventBytes) -> bool
    ensures { result ≡ all_zero (between bytes.now 16 event_length) }
{
    eight_at(bytes, 16) == 0 && eight_at(bytes, 24) == 0 && eight_at(bytes, 32) == 0
}

fn checked(clear: bool, form: Form) -> Result<Form, Refusal>
    ensures { result ≡ cond clear (Ok form) (Err Malformed) }
{
    if clear {
        Ok(form)
    } else {
        Err(Refusal::Malformed)
    }
}

// A field and the reserved bytes above it are read as one number: it is below the field's bound only where those bytes are zero.
fn touch_form(bytes: &EventBytes, limit: ContactLimit) -> Result<Form, Refusal>
    requires { get_or bytes.now 0 0 ≡ xenkbd_type_mtouch }
    ensures { result ≡ form_told (form_of (decoded bytes.now limit.contacts)) }
{
    let subtype = bytes[1];
    if subtype > XENKBD_MT_EV_ORIENT {
        return Ok(Form::UnknownType);
    }
    // The contact is the third of eight bytes, and those above it are reserved.
    if eight_at(bytes, 0) >= u64::from(limit.contacts) * 65536 || !tail_is_zero(bytes) {
        return Err(Refusal::Malformed);
    }
    // By compares: a match would jump by a table, and took longer.
    if subtype == XENKBD_MT_EV_SHAPE {
        Ok(Form::Axes)
    } else if subtype == XENKBD_MT_EV_ORIENT {
        checked(eight_at(bytes, 8) < 65536, Form::Orientation)
    } else if subtype % 2 == 1 {
        // Of the others the odd ones, up and syn, have no more fields.
        checked(eight_at(bytes, 8) == 0, Form::Contact)
    } else {
        Ok(Form::Place)
    }
}

// A call of its own would take as long as the tests.
#[inline]
pub fn form_of(bytes: &EventBytes, limit: ContactLimit) -> Result<Form, Refusal>
    ensures { result ≡ form_told (form_of (decoded bytes.now limit.contacts)) }
{
    let kind = bytes[0];
    if kind == XENKBD_TYPE_MTOUCH {
        return touch_form(bytes, limit);
    }
    // Among the types up to that of a position, 0 and 2 are none.
    if kind > XENKBD_TYPE_POS || kind == 0 || kind == 2 {
        return Ok(Form::UnknownType);
    }
    if !tail_is_zero(bytes) {
        return Err(Refusal::Malformed);
    }
    let head = words::read_u32(bytes, 0);
    if kind == XENKBD_TYPE_KEY {
        checked(
            head < PRESSED_END && eight_at(bytes, 8) == 0,
            Form::KeyPress,
        )
    } else {
        checked(head < 256, Form::Pointer)
    }
}

// Whether 40 bytes are a known and well-formed event.
pub fn may_be_put(bytes: &EventBytes, limit: ContactLimit) -> bool
    ensures { result ≡ may_be_put (decoded bytes.now limit.contacts) }
{
    !matches!(form_of(bytes, limit), Ok(Form::UnknownType) | Err(_))
}
