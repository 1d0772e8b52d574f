// What the call, the packet and the slot's entry decide, whatever the revision.
ghost use Rattle.std.specs.Prelude.{◌≡◌, ◌≤◌, ◌<◌, length, IfOk};
ghost use Rattle.answers.specs.Refusal.{answer_of};
ghost use Rattle.answers.specs.Refusals.{first_refusal};
ghost use Rattle.geometry.specs.Geometry.{ring_length, ring_of};
ghost use Rattle.records.specs.Event.{most_events};
ghost use Rattle.records.specs.Packet.{event_count, events_of};
ghost use Rattle.records.specs.Ring.{Holds};
ghost use Rattle.packets.specs.Packet.{all_offered};
ghost use Rattle.packets.specs.Rule.{offer_refusals};

use answers::Refusal;
use device::Device;
use entries::KNOWN_LENGTH;
use geometry::{Geometry, Layout, Slot};
use records::MOST_EVENTS;

fn offers_all(entry: &[u8; KNOWN_LENGTH], packet: &[u8]) -> bool
    ensures { result ≡ all_offered entry.now (events_of packet.now) }
{
    for i in 0..packet.len() / 8 {
        if !entries::is_offered(entry, records::decode(packet, i * 8)) {
            return false;
        }
    }
    true
}

// The layout of a call whose packet the slot offers.
#[tactic(auto, unfolding(answers::specs::Refusals::first_refusal))]
pub(crate) fn offered(
    device: &Device,
    geometry: Geometry,
    area_size: usize,
    page: &[u8],
    slot: u32,
    packet: &[u8],
) -> Result<Layout, Refusal>
    ensures tested { answer_of result
        ≡ first_refusal (offer_refusals geometry device.now area_size page.now slot packet.now) }
    ensures same { IfOk result (λ layout. layout.geometry ≡ geometry) }
    ensures inside { IfOk result (λ layout. device.now.producer.write_index < ring_length layout.geometry) }
    ensures holds { IfOk result (λ layout. Holds area_size (ring_of layout.geometry)) }
    ensures few { IfOk result (λ _. event_count packet.now ≤ most_events) }
{
    let layout = device
        .valid_call(geometry, area_size, page.len())
        .ok_or(Refusal::Invalid)?;
    if packet.len() % 8 != 0 {
        return Err(Refusal::Invalid);
    }
    if !device.registers.on {
        return Err(Refusal::DeviceOff);
    }
    if !device.is_taken(slot) {
        return Err(Refusal::BadSlot);
    }
    let count = packet.len() / 8;
    if count < 1 || count > MOST_EVENTS as usize {
        return Err(Refusal::Malformed);
    }
    let taken = Slot {
        layout,
        number: slot,
    };
    if !offers_all(entries::known_bytes(taken, page), packet) {
        return Err(Refusal::NotOffered);
    }
    Ok(layout)
}
