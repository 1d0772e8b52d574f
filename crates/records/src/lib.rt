// Event records in the event area: one put, one read, the two pointers, unread records and room.
#![tactic(auto)]

pub mod codes;
mod index;
mod put;
mod unread;

ghost use Rattle.std.specs.Prelude.{◌≡◌, ◌+◌, ◌≤◌, length};
ghost use Rattle.records.specs.Event.{event_bytes, event_at};
ghost use Rattle.records.specs.Ring.{read_pointer, write_pointer, with_read_pointer, with_write_pointer};

pub use index::RingIndex;

// A packet has so many events at most.
pub const MOST_EVENTS: u32 = 32;

// Where the pointers stand in the event area.
const READ_PTR: usize = 0;

const WRITE_PTR: usize = 4;

#[repr(C)]
#[derive(Clone, Copy)]
pub struct Event {
    pub kind: u16,
    pub code: u16,
    pub value: u32,
}

// Fills a record's own eight bytes.
pub fn encode(stretch: &mut [u8], event: Event)
    requires { length stretch.old ≡ 8 }
    ensures { stretch.new ≡ event_bytes event }
{
    words::write_u16(stretch, 0, event.kind);
    words::write_u16(stretch, 2, event.code);
    words::write_u32(stretch, 4, event.value);
}

pub fn decode(bytes: &[u8], at: usize) -> Event
    requires { at + 8 ≤ length bytes.now }
    ensures { result ≡ event_at bytes.now at }
{
    Event {
        kind: words::read_u16(bytes, at),
        code: words::read_u16(bytes, at + 2),
        value: words::read_u32(bytes, at + 4),
    }
}

// Kept, the bound and the four by their names: that an area holds its pointers follows from `Holds` in every caller, and a type for it
// would be one more to make there. Each of the four is one line over the register that it is named for.
pub fn read_pointer(area: &[u8]) -> u32
    requires { 8 ≤ length area.now }
    ensures { result ≡ read_pointer area.now }
{
    words::read_u32(area, READ_PTR)
}

pub fn write_pointer(area: &[u8]) -> u32
    requires { 8 ≤ length area.now }
    ensures { result ≡ write_pointer area.now }
{
    words::read_u32(area, WRITE_PTR)
}

pub fn set_read_pointer(area: &mut [u8], index: u32)
    requires { 8 ≤ length area.old }
    ensures { area.new ≡ with_read_pointer area.old index }
{
    words::write_u32(area, READ_PTR, index);
}

pub fn set_write_pointer(area: &mut [u8], index: u32)
    requires { 8 ≤ length area.old }
    ensures { area.new ≡ with_write_pointer area.old index }
{
    words::write_u32(area, WRITE_PTR, index);
}
