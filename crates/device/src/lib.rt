// The device's state, and the rules that every state passed in must keep.
#![tactic(auto)]

mod call;
mod client_rev;
mod room;
mod state;

use answers::Refusal;
pub use call::valid_bounds;
use revision1_records::Position;
pub use room::check_room;
pub use state::is_acceleration;

// What the registers remember.
#[repr(C)]
#[derive(Clone, Copy)]
pub struct Registers {
    // CONTROL, bit 0.
    pub on: bool,
    // CONTROL, bit 1.
    pub interrupts: bool,
    pub isr: bool,
    // CLIENT_REV was written while off. No Option of a number: `thayarqo_fresh_device` and all other calls lay the two out for C.
    pub client_rev_written: bool,
    pub client_rev: u16,
    // In tenths. It is kept where it is hidden, too.
    pub acceleration: u16,
}

// The revision that a device serves while it is on.
#[derive(Clone, Copy)]
pub enum Revision {
    One,
    Two,
}

// The device's end of the ring. A switch-on starts it anew.
#[repr(C)]
#[derive(Clone, Copy)]
pub struct Producer {
    // The private write index. WRITE_PTR in the area is a copy for the guest.
    pub write_index: u32,
    // The slot of the last packet that was put in revision 2; none after a switch-on, and after a remove of that slot. None is
    // a number too, and no Option: C knows it as THAYARQO_NO_SLOT.
    pub current_slot: u32,
    // The position of the last ABSOLUTE record, in revision 1; (0, 0) after a switch-on.
    pub position: Position,
    // The lost mark: a packet was refused with 10 or 7 since the last one that was put, in revision 1 since the switch-on.
    pub lost: bool,
}

#[repr(C)]
#[derive(Clone, Copy)]
pub struct Device {
    pub registers: Registers,
    pub producer: Producer,
    // The taken slots as a mask, slot 0 its lowest bit, so that a call's cost doesn't grow with the slots.
    pub taken: u64,
}

// What a rule answers, and the state after it. Kept: the four rules take the state by value and give it back, a form asked for by place.
#[derive(Clone, Copy)]
pub struct Outcome {
    pub answer: Result<(), Refusal>,
    pub device: Device,
}
