// Types and codes of records, by Linux's names, and the records that the device itself makes.
// Kept as numbers: a record may have any type and code, and `decode` and `encode` answer for all of them (`event_at`, `event_bytes`).
ghost use Rattle.std.specs.Prelude.{◌≡◌};
ghost use Rattle.records.specs.Codes.{syn_record, dev_record};

use crate::Event;

pub const EV_SYN: u16 = 0;

pub const EV_KEY: u16 = 1;

pub const EV_REL: u16 = 2;

pub const EV_ABS: u16 = 3;

pub const EV_DEV: u16 = 6;

pub const SYN_REPORT: u16 = 0;

pub const SYN_MT_REPORT: u16 = 2;

pub const SYN_DROPPED: u16 = 3;

pub const REL_X: u16 = 0x00;

pub const REL_Y: u16 = 0x01;

pub const REL_WHEEL: u16 = 0x08;

pub const ABS_X: u16 = 0x00;

pub const ABS_Y: u16 = 0x01;

pub const BTN_LEFT: u16 = 0x110;

pub const BTN_RIGHT: u16 = 0x111;

pub const BTN_MIDDLE: u16 = 0x112;

pub const DEV_SET: u16 = 1;

pub const DEV_CONF: u16 = 2;

pub const DEV_RESET: u16 = 3;

// The slots that have no entry: none, and unknown source.
pub const NO_SLOT: u32 = 0xFFFF_FFFE;

pub const UNKNOWN_SLOT: u32 = 0xFFFF_FFFF;

// DEV_RESET of this value is of all slots.
pub const ALL_SLOTS: u32 = 0xFFFF;

pub fn syn_record(code: u16) -> Event
    ensures { result ≡ syn_record code }
{
    Event {
        kind: EV_SYN,
        code,
        value: 0,
    }
}

pub fn dev_record(code: u16, slot: u32) -> Event
    ensures { result ≡ dev_record code slot }
{
    Event {
        kind: EV_DEV,
        code,
        value: slot,
    }
}
