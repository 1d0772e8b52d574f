// What a packet gives in revision 1: records with flags and data, one after the other, up to a FENCE.
#![tactic(auto)]

mod flags;
mod group;

pub use group::{position_after, put_group, record_count};

// A pointer's position, as the last ABSOLUTE record has it.
#[repr(C)]
#[derive(Clone, Copy)]
pub struct Position {
    pub x: u16,
    pub y: u16,
}
