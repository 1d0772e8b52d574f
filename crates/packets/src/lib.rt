// A packet of events for a slot: refused, or put whole.
#![tactic(auto)]

mod offer;
mod revision1;
mod revision2;

ghost use Rattle.std.specs.Prelude.{◌≡◌};
ghost use Rattle.answers.specs.Refusal.{answer_of};
ghost use Rattle.packets.specs.Rule.{packet_of};

use answers::Refusal;
use device::{Device, Outcome, Revision};
use geometry::Geometry;
use offer::offered;
use revision1::put_in_revision1;
use revision2::put_in_revision2;

// Refuses in order, tests the room for all records, then puts them. The events are lent as bytes, so that none is copied before it is put.
fn put(
    device: &mut Device,
    geometry: Geometry,
    area: &mut [u8],
    page: &[u8],
    slot: u32,
    packet: &[u8],
) -> Result<(), Refusal>
    ensures { let put = packet_of geometry device.old area.old page.now slot packet.now in
        (answer_of result ≡ put.outcome.answer) × (device.new ≡ put.outcome.device) × (area.new ≡ put.area) }
{
    let layout = offered(&*device, geometry, area.len(), page, slot, packet)?;
    match device.registers.revision() {
        Revision::One => put_in_revision1(device, layout, area, packet),
        Revision::Two => put_in_revision2(device, layout, area, slot, packet),
    }
}

pub fn packet_rule(
    mut device: Device,
    geometry: Geometry,
    area: &mut [u8],
    page: &[u8],
    slot: u32,
    packet: &[u8],
) -> Outcome
    ensures { let put = packet_of geometry device area.old page.now slot packet.now in
        (answer_of result.answer ≡ put.outcome.answer) × (result.device ≡ put.outcome.device) × (area.new ≡ put.area) }
{
    let answer = put(&mut device, geometry, area, page, slot, packet);
    Outcome { answer, device }
}
