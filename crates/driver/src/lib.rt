// The guest's reader of the event area: one record a step.
#![tactic(auto)]

ghost use Rattle.std.specs.Prelude.{◌≡◌};
ghost use Rattle.answers.specs.Refusal.{answer_of};
ghost use Rattle.assembly.specs.Told.{told_of};
ghost use Rattle.driver.specs.Answer.{step_answer};
ghost use Rattle.driver.specs.Step.{is_driver, step_of};

use answers::Refusal;
use assembly::{Driver, PACKET_LENGTH, Told};
use geometry::{Geometry, Layout};
use reading::{area_layout, take_oldest};
use records::MOST_EVENTS;
use records::codes::{NO_SLOT, UNKNOWN_SLOT};

#[tactic(auto, unfolding(crate::specs::Step::is_driver))]
fn is_driver(layout: Layout, driver: &Driver) -> bool
    ensures { result ≡ is_driver layout.geometry driver.now }
{
    driver.held <= MOST_EVENTS
        && (matches!(driver.slot, NO_SLOT | UNKNOWN_SLOT) || layout.is_slot(driver.slot))
}

// Reads one record. An event that joins the packet is written behind those before it. A malformed record is read too, though it is
// refused.
pub fn step(
    geometry: Geometry,
    driver: &mut Driver,
    area: &mut [u8],
    packet: &mut [u8],
) -> Result<Told, Refusal>
    ensures { let step = step_of geometry driver.old area.old packet.old in
        (told_of result ≡ step.stepped.told) × ((driver.new ≡ step.stepped.driver) × ((area.new ≡ step.area)
        × ((packet.new ≡ step.packet) × (answer_of result ≡ step_answer geometry driver.old area.old packet.old)))) }
{
    let layout = area_layout(geometry, area.len())?;
    let Some(packet) = packet.as_mut_array::<PACKET_LENGTH>() else {
        return Err(Refusal::Invalid);
    };
    if !is_driver(layout, driver) {
        return Err(Refusal::Invalid);
    }
    // Kept: taken apart by let .. else, a form asked for by place.
    let taken = take_oldest(layout.ring(), area);
    let Ok(event) = taken else {
        return Err(taken.unwrap_err());
    };
    driver.receive(layout, event, packet)
}
