// Records of revision 1, by the flags of the device's page.
// Kept as numbers: they are bits of a record's 16, which the definitions add up (`flagged`, `button_flag`).
ghost use Rattle.std.specs.Prelude.{◌≡◌, true};
ghost use Rattle.revision1_records.specs.Flags.{flagged as record_of, button_flag};
ghost use Rattle.revision1_records.specs.Records.{button_record};

use records::Event;
use records::codes::{BTN_LEFT, BTN_RIGHT};

pub(crate) const ABSOLUTE: u16 = 0x001;

pub(crate) const RELATIVE: u16 = 0x002;

pub(crate) const FENCE: u16 = 0x004;

const LEFT_BUTTON_DOWN: u16 = 0x008;

const LEFT_BUTTON_UP: u16 = 0x010;

const RIGHT_BUTTON_DOWN: u16 = 0x020;

const RIGHT_BUTTON_UP: u16 = 0x040;

const MIDDLE_BUTTON_DOWN: u16 = 0x080;

const MIDDLE_BUTTON_UP: u16 = 0x100;

pub(crate) const VWHEEL: u16 = 0x400;

// The revision of each record.
const REVISION: u16 = 1;

pub(crate) fn flagged(flags: u16, content: u32) -> Event
    ensures { result ≡ record_of flags content }
{
    Event {
        kind: flags,
        code: REVISION,
        value: content,
    }
}

#[tactic(auto, unfolding(crate::specs::Flags::button_flag))]
fn button_flag(code: u16, value: u32) -> u16
    ensures { result ≡ button_flag code value }
{
    match (code, value) {
        (BTN_LEFT, 0) => LEFT_BUTTON_UP,
        (BTN_LEFT, _) => LEFT_BUTTON_DOWN,
        (BTN_RIGHT, 0) => RIGHT_BUTTON_UP,
        (BTN_RIGHT, _) => RIGHT_BUTTON_DOWN,
        (_, 0) => MIDDLE_BUTTON_UP,
        _ => MIDDLE_BUTTON_DOWN,
    }
}

pub(crate) fn button_record(event: Event) -> Event
    ensures { result ≡ button_record event }
{
    flagged(button_flag(event.code, event.value), 0)
}
