// What a packet has that revision 1 can tell, and whether it has a form.
#![tactic(auto)]

mod scan;

pub use scan::{gesture_of, has_form, is_button};

// An axis, or the wheel, of a packet.
// Kept: `has_form` and `record_count` answer for gestures with a repeated axis or an unknown event, too. An Option for each axis has none
// of these, and would ask more of their callers.
#[derive(Clone, Copy)]
pub struct Axis {
    pub given: bool,
    // Given more than once.
    pub repeated: bool,
    // 0 where it isn't given.
    pub value: u32,
}

// What a packet has that revision 1 can tell.
#[derive(Clone, Copy)]
pub struct Gesture {
    // Every event has a form.
    pub known: bool,
    pub relative_x: Axis,
    pub relative_y: Axis,
    pub absolute_x: Axis,
    pub absolute_y: Axis,
    pub wheel: Axis,
    // How many events are of a button.
    pub buttons: u32,
}
