// What each record does to a driver: events are collected into packets, and each packet is told whole.
#![tactic(auto)]

mod classify;
mod packet;
mod transition;

ghost use Rattle.std.specs.Prelude.{◌≡◌};
ghost use Rattle.assembly.specs.Transition.{fresh_driver};

pub use packet::PACKET_LENGTH;
use records::codes::NO_SLOT;

// The driver's state but for the events of the packet that it collects. These stand in a buffer of their own that the caller
// lends, so that a step copies one event at most.
#[repr(C)]
#[derive(Clone, Copy)]
pub struct Driver {
    // A slot, or one of two numbers for none and unknown, which C knows by name. Kept: no enum goes to C.
    pub slot: u32,
    // How many events of the packet are collected.
    pub held: u32,
    // It had over 32 events.
    pub overlong: bool,
    // A DEV_SET, a reset of all or a reset of its slot came in its middle.
    pub spoiled: bool,
    // Records were dropped: events up to the next report don't count.
    pub ignoring: bool,
}

// What a record is, by its type, code and value.
#[derive(Clone, Copy)]
pub enum Kind {
    SynReport,
    SynDropped,
    DevSet,
    DevConf,
    DevReset,
    DevResetAll,
    BadDevSet,
    BadDev,
    Other,
}

// What a step tells. A packet's events are the first `count` of the lent buffer. Kept: that there is nothing to tell is one of the eight
// things that C is told by number (`thayarqo_step`).
#[derive(Clone, Copy)]
pub enum Told {
    Nothing,
    Gap,
    EmptyReport,
    Packet { slot: u32, count: u32 },
    Set(u32),
    Conf(u32),
    Reset(u32),
    ResetAll,
}

impl Driver {
    pub fn fresh() -> Driver
        ensures { result ≡ fresh_driver }
    {
        Driver {
            slot: NO_SLOT,
            held: 0,
            overlong: false,
            spoiled: false,
            ignoring: false,
        }
    }
}
