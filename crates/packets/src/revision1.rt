// A packet in revision 1, once its slot's entry offers every event.
ghost use Rattle.std.specs.Prelude.{◌≡◌, ℕ, ◌≤◌, ◌<◌, length};
ghost use Rattle.answers.specs.Refusal.{answer_of};
ghost use Rattle.geometry.specs.Geometry.{ring_length, ring_of};
ghost use Rattle.records.specs.Event.{most_events};
ghost use Rattle.records.specs.Packet.{event_count};
ghost use Rattle.records.specs.Ring.{Holds};
ghost use Rattle.device.specs.declared.Revision.TheVariants.{One};
ghost use Rattle.device.specs.Revision.{revision_of};
ghost use Rattle.packets.specs.Rule.{put_of};

use answers::Refusal;
use device::{Device, check_room};
use geometry::Layout;
use revision1_gestures::{gesture_of, has_form};
use revision1_records::{position_after, put_group, record_count};

// The packet is read once for its form, and the room is tested for all its records. No record tells the slot.
pub(crate) fn put_in_revision1(
    device: &mut Device,
    layout: Layout,
    area: &mut [u8],
    packet: &[u8],
) -> Result<(), Refusal>
    requires registers_value { revision_of device.old.registers ≡ One }
    requires few { event_count packet.now ≤ most_events }
    requires holds { (Holds (length area.old) (ring_of layout.geometry))
        × (device.old.producer.write_index < ring_length layout.geometry) }
    ensures { (slot : ℕ) → let put = put_of layout.geometry device.old area.old slot packet.now in
        (answer_of result ≡ put.outcome.answer) × (device.new ≡ put.outcome.device) × (area.new ≡ put.area) }
{
    let gesture = gesture_of(packet);
    let acceleration = device.registers.acceleration;
    if !has_form(acceleration, gesture) {
        return Err(Refusal::NotOffered);
    }
    let write = device.write_place(layout);
    if let Err(refusal) = check_room(write, &area[..], record_count(gesture)) {
        device.producer.lost = true;
        return Err(refusal);
    }
    let last = device.producer.position;
    let next = put_group(write, area, acceleration, last, gesture, packet);
    // The lost mark isn't shown, and no slot is named: both stay.
    device.registers.isr |= device.registers.interrupts;
    device.producer.write_index = next.index;
    device.producer.position = position_after(last, gesture);
    Ok(())
}
