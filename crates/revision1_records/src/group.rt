// The records of a packet in revision 1, counted and put one after the other.
ghost use Rattle.std.specs.Prelude.{◌≡◌, true, ◌≤◌, length};
ghost use Rattle.records.specs.Event.{most_events};
ghost use Rattle.records.specs.Packet.{events_of};
ghost use Rattle.records.specs.Ring.{Holds};
ghost use Rattle.records.specs.Put.{record_if};
ghost use Rattle.records.specs.Index.{PutFrom};
ghost use Rattle.revision1_gestures.specs.Gesture.{is_button, button_count, gesture_of};
ghost use Rattle.revision1_gestures.specs.Form.{is_position};
ghost use Rattle.revision1_records.specs.Records.{value_or, position_after, has_relative, has_absolute, relative_record, absolute_record};
ghost use Rattle.revision1_records.specs.Records.{button_record, button_records, parts_of, group_of, record_count};

use crate::Position;
use crate::flags::{ABSOLUTE, FENCE, RELATIVE, VWHEEL, button_record, flagged};
use records::{Event, RingIndex};
use revision1_gestures::{Axis, Gesture, is_button};
use revision1_motion::scaled;

fn value_or(last: u16, axis: Axis) -> u16
    requires { axis.value ≤ 65535 }
    ensures { result ≡ value_or last axis }
{
    if axis.given { axis.value as u16 } else { last }
}

// The position that a packet of this form leaves.
// Kept: `is_position` is one half of what has_form answered, and no finding of its own test. A type for it would be a Gesture again, with
// this one fact.
pub fn position_after(last: Position, gesture: Gesture) -> Position
    requires { is_position gesture ≡ true }
    ensures { result ≡ position_after last gesture }
{
    Position {
        x: value_or(last.x, gesture.absolute_x),
        y: value_or(last.y, gesture.absolute_y),
    }
}

fn has_relative(gesture: Gesture) -> bool
    ensures { result ≡ has_relative gesture }
{
    gesture.relative_x.given | gesture.relative_y.given
}

fn has_absolute(gesture: Gesture) -> bool
    ensures { result ≡ has_absolute gesture }
{
    gesture.absolute_x.given | gesture.absolute_y.given
}

pub fn record_count(gesture: Gesture) -> u32
    requires { gesture.buttons ≤ most_events }
    ensures { result ≡ record_count gesture }
{
    let motions = bits::bit_of(has_relative(gesture)) + bits::bit_of(has_absolute(gesture));
    motions + gesture.buttons + bits::bit_of(gesture.wheel.given) + 1
}

fn relative_record(acceleration: u16, gesture: Gesture) -> Event
    ensures { result ≡ relative_record acceleration gesture }
{
    let x = scaled(acceleration, gesture.relative_x.value);
    let y = scaled(acceleration, gesture.relative_y.value);
    flagged(RELATIVE, x + y * 65536)
}

fn absolute_record(position: Position) -> Event
    ensures { result ≡ absolute_record position }
{
    flagged(
        ABSOLUTE,
        u32::from(position.x) + u32::from(position.y) * 65536,
    )
}

// Most packets have no button, and aren't read a second time.
fn put_buttons(first: RingIndex, area: &mut [u8], buttons: u32, packet: &[u8]) -> RingIndex
    requires holds { Holds (length area.old) first.ring }
    requires buttons_value { buttons ≡ button_count (events_of packet.now) }
    ensures { PutFrom first (button_records (events_of packet.now)) area.old area.new result }
{
    if buttons == 0 {
        return first;
    }
    put_each_button(first, area, packet)
}

// Most events are of no button, and no record is made for them.
fn put_button(at: RingIndex, area: &mut [u8], event: Event) -> RingIndex
    requires { Holds (length area.old) at.ring }
    ensures { PutFrom at (record_if (is_button event) (button_record event)) area.old area.new result }
{
    if !is_button(event) {
        return at;
    }
    at.put(area, button_record(event))
}

fn put_each_button(first: RingIndex, area: &mut [u8], packet: &[u8]) -> RingIndex
    requires { Holds (length area.old) first.ring }
    ensures { PutFrom first (button_records (events_of packet.now)) area.old area.new result }
{
    let mut at = first;
    for i in 0..packet.len() / 8 {
        at = put_button(at, area, records::decode(packet, i * 8));
    }
    at
}

#[tactic(auto, using(records::proofs::Laws::PutFrom::still_holds))]
fn put_parts(
    first: RingIndex,
    area: &mut [u8],
    acceleration: u16,
    last: Position,
    gesture: Gesture,
    packet: &[u8],
) -> RingIndex
    requires holds { Holds (length area.old) first.ring }
    requires gesture_value { (gesture ≡ gesture_of (events_of packet.now)) × (is_position gesture ≡ true) }
    ensures { PutFrom first (parts_of acceleration last (events_of packet.now)) area.old area.new result }
{
    let relative = relative_record(acceleration, gesture);
    let second = first.put_if(area, has_relative(gesture), relative);
    let absolute = absolute_record(position_after(last, gesture));
    let third = second.put_if(area, has_absolute(gesture), absolute);
    let fourth = put_buttons(third, area, gesture.buttons, packet);
    fourth.put_if(
        area,
        gesture.wheel.given,
        flagged(VWHEEL, gesture.wheel.value),
    )
}

// Puts a packet's records, the FENCE last. Answers the index of the next record.
#[tactic(auto, using(records::proofs::Laws::PutFrom::still_holds))]
pub fn put_group(
    first: RingIndex,
    area: &mut [u8],
    acceleration: u16,
    last: Position,
    gesture: Gesture,
    packet: &[u8],
) -> RingIndex
    requires holds { Holds (length area.old) first.ring }
    requires gesture_value { (gesture ≡ gesture_of (events_of packet.now)) × (is_position gesture ≡ true) }
    ensures { PutFrom first (group_of acceleration last (events_of packet.now)) area.old area.new result }
{
    let fence = put_parts(first, area, acceleration, last, gesture, packet);
    fence.put(area, flagged(FENCE, 0))
}
