// A packet's events by what they are to revision 1, read once.
ghost use Rattle.std.specs.Prelude.{◌≡◌, true, false, ◌≤◌, ◌<◌};
ghost use Rattle.records.specs.Codes as codes;
ghost use Rattle.records.specs.Event.{most_events};
ghost use Rattle.records.specs.Packet.{event_count, events_of};
ghost use Rattle.revision1_gestures.specs.Gesture.{is_button, gesture_of};
ghost use Rattle.revision1_gestures.specs.Scan.{missing, unread, with_unknown, once, unless_given, read_with, Tells};
ghost use Rattle.revision1_gestures.specs.Form.{is_repeated, is_plain, has_form};

use crate::{Axis, Gesture};
use records::Event;
use records::codes::{
    ABS_X, ABS_Y, BTN_LEFT, BTN_MIDDLE, EV_ABS, EV_KEY, EV_REL, REL_WHEEL, REL_X, REL_Y,
};
use revision1_motion::is_in_range;

fn no_axis() -> Axis
    ensures { result ≡ missing }
{
    Axis {
        given: false,
        repeated: false,
        value: 0,
    }
}

fn nothing() -> Gesture
    ensures { result ≡ unread }
{
    let axis = no_axis();
    Gesture {
        relative_x: axis,
        relative_y: axis,
        absolute_x: axis,
        absolute_y: axis,
        wheel: axis,
        buttons: 0,
        known: true,
    }
}

pub fn is_button(event: Event) -> bool
    ensures { result ≡ is_button event }
{
    event.kind == EV_KEY && BTN_LEFT <= event.code && event.code <= BTN_MIDDLE
}

// An axis that the packet didn't have yet.
fn once(value: u32) -> Axis
    ensures { result ≡ once value }
{
    Axis {
        given: true,
        repeated: false,
        value,
    }
}

fn with_unknown(gesture: Gesture) -> Gesture
    ensures { result ≡ with_unknown gesture }
{
    Gesture {
        known: false,
        ..gesture
    }
}

// Kept: that a gesture is plain is asked by these three alone. A type for it would be a second Gesture, made and taken apart at each event.
fn unless_given(axis: Axis, gesture: Gesture, after: Gesture) -> Gesture
    ensures { result ≡ unless_given axis gesture after }
{
    if axis.given {
        with_unknown(gesture)
    } else {
        after
    }
}

#[tactic(auto, using(crate::proofs::Laws::Axes::by_axis))]
fn with_relative(gesture: Gesture, event: Event) -> Gesture
    requires { (event.kind ≡ codes.ev_rel) × (is_plain gesture ≡ true) }
    ensures { result ≡ read_with event gesture }
{
    let axis = once(event.value);
    match event.code {
        REL_X => unless_given(
            gesture.relative_x,
            gesture,
            Gesture {
                relative_x: axis,
                ..gesture
            },
        ),
        REL_Y => unless_given(
            gesture.relative_y,
            gesture,
            Gesture {
                relative_y: axis,
                ..gesture
            },
        ),
        REL_WHEEL => unless_given(
            gesture.wheel,
            gesture,
            Gesture {
                wheel: axis,
                ..gesture
            },
        ),
        _ => with_unknown(gesture),
    }
}

// Kept beside with_relative: each names its own axes, and one for both would be given them by a match at its call.
#[tactic(auto, using(crate::proofs::Laws::Axes::by_axis))]
fn with_absolute(gesture: Gesture, event: Event) -> Gesture
    requires { (event.kind ≡ codes.ev_abs) × (is_plain gesture ≡ true) }
    ensures { result ≡ read_with event gesture }
{
    let axis = once(event.value);
    match event.code {
        ABS_X => unless_given(
            gesture.absolute_x,
            gesture,
            Gesture {
                absolute_x: axis,
                ..gesture
            },
        ),
        ABS_Y => unless_given(
            gesture.absolute_y,
            gesture,
            Gesture {
                absolute_y: axis,
                ..gesture
            },
        ),
        _ => with_unknown(gesture),
    }
}

fn with_event(gesture: Gesture, event: Event) -> Gesture
    requires { (gesture.buttons < most_events) × (is_plain gesture ≡ true) }
    ensures { result ≡ read_with event gesture }
{
    if event.kind == EV_REL {
        return with_relative(gesture, event);
    }
    if event.kind == EV_ABS {
        return with_absolute(gesture, event);
    }
    if !is_button(event) {
        return with_unknown(gesture);
    }
    Gesture {
        buttons: gesture.buttons + 1,
        ..gesture
    }
}

// An event without a form, or one that comes again, leaves the packet without one: it isn't read further, and the loop needn't hold what
// is repeated.
// Kept: that a packet has so many events at most is a fact of bytes that are lent. A type for it would be a borrow in a struct, made once
// and opened by each function that reads the bytes.
pub fn gesture_of(packet: &[u8]) -> Gesture
    requires { event_count packet.now ≤ most_events }
    ensures { Tells result (gesture_of (events_of packet.now)) }
{
    let mut gesture = nothing();
    for i in 0..packet.len() / 8 {
        gesture = with_event(gesture, records::decode(packet, i * 8));
        if !gesture.known {
            return gesture;
        }
    }
    gesture
}

fn is_repeated(gesture: Gesture) -> bool
    ensures { result ≡ is_repeated gesture }
{
    gesture.relative_x.repeated
        || gesture.relative_y.repeated
        || gesture.absolute_x.repeated
        || gesture.absolute_y.repeated
        || gesture.wheel.repeated
}

#[tactic(auto, unfolding(crate::specs::Form::has_form))]
pub fn has_form(acceleration: u16, gesture: Gesture) -> bool
    ensures { result ≡ has_form acceleration gesture }
{
    gesture.known
        && !is_repeated(gesture)
        && is_in_range(acceleration, gesture.relative_x.value)
        && is_in_range(acceleration, gesture.relative_y.value)
        && gesture.absolute_x.value <= 65535
        && gesture.absolute_y.value <= 65535
}
