// A packet in revision 2, once its slot's entry offers every event.
ghost use Rattle.std.specs.Prelude.{◌≡◌, ◌≤◌, ◌<◌, length};
ghost use Rattle.answers.specs.Refusal.{answer_of};
ghost use Rattle.geometry.specs.Geometry.{ring_length, ring_of};
ghost use Rattle.records.specs.Event.{most_events};
ghost use Rattle.records.specs.Packet.{event_count};
ghost use Rattle.records.specs.Ring.{Holds};
ghost use Rattle.device.specs.declared.Revision.TheVariants.{Two};
ghost use Rattle.device.specs.Revision.{revision_of};
ghost use Rattle.packets.specs.Rule.{put_of};

use answers::Refusal;
use device::{Device, check_room};
use geometry::Layout;
use packet_records::{put_packet, record_count};

pub(crate) fn put_in_revision2(
    device: &mut Device,
    layout: Layout,
    area: &mut [u8],
    slot: u32,
    packet: &[u8],
) -> Result<(), Refusal>
    requires registers_value { revision_of device.old.registers ≡ Two }
    requires few { event_count packet.now ≤ most_events }
    requires holds { (Holds (length area.old) (ring_of layout.geometry))
        × (device.old.producer.write_index < ring_length layout.geometry) }
    ensures { let put = put_of layout.geometry device.old area.old slot packet.now in
        (answer_of result ≡ put.outcome.answer) × (device.new ≡ put.outcome.device) × (area.new ≡ put.area) }
{
    let lost = device.producer.lost;
    let current = device.producer.current_slot;
    let needed = record_count(lost, current, slot, packet);
    let write = device.write_place(layout);
    if let Err(refusal) = check_room(write, &area[..], needed) {
        device.producer.lost = true;
        return Err(refusal);
    }
    let next = put_packet(write, area, lost, current, slot, packet);
    // The lost mark was shown, and the slot is current.
    device.registers.isr |= device.registers.interrupts;
    device.producer.write_index = next.index;
    device.producer.current_slot = slot;
    device.producer.lost = false;
    Ok(())
}
