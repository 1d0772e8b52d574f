// A device removed from its slot.
ghost use Rattle.std.specs.Prelude.{◌≡◌, IfOk};
ghost use Rattle.answers.specs.Refusal.{answer_of};
ghost use Rattle.hotplug.specs.Remove.{current_without, remove_answer, remove_of};

use crate::tells;
use answers::Refusal;
use device::{Device, Outcome};
use geometry::{Geometry, Slot};
use records::codes::{DEV_RESET, NO_SLOT, dev_record};

// The slot that may be freed. A taken slot is in range.
#[tactic(auto, unfolding(crate::specs::Remove::remove_answer, answers::specs::Refusals::first_refusal))]
fn taken_slot(
    device: &Device,
    geometry: Geometry,
    area: &[u8],
    page: &[u8],
    slot: u32,
) -> Result<Slot, Refusal>
    ensures tested { answer_of result ≡ remove_answer geometry device.now area.now page.now slot }
    ensures same { IfOk result (λ taken. (taken.layout.geometry ≡ geometry) × (taken.number ≡ slot)) }
{
    let layout = device
        .valid_call(geometry, area.len(), page.len())
        .ok_or(Refusal::Invalid)?;
    if !device.is_taken(slot) {
        return Err(Refusal::BadSlot);
    }
    let needed = bits::bit_of(tells(device.registers));
    device::check_room(device.write_place(layout), area, needed)?;
    Ok(Slot {
        layout,
        number: slot,
    })
}

fn current_without(current: u32, slot: u32) -> u32
    ensures { result ≡ current_without current slot }
{
    if current == slot { NO_SLOT } else { current }
}

// Zeroes the slot's entry, and tells the guest.
fn remove(
    device: &mut Device,
    geometry: Geometry,
    area: &mut [u8],
    page: &mut [u8],
    slot: u32,
) -> Result<(), Refusal>
    ensures { let removed = remove_of geometry device.old area.old page.old slot in
        (answer_of result ≡ removed.outcome.answer) × (device.new ≡ removed.outcome.device)
        × (area.new ≡ removed.area) × (page.new ≡ removed.page) }
{
    let taken = taken_slot(&*device, geometry, &area[..], &page[..], slot)?;
    entries::clear_entry(taken, page);
    let told = tells(device.registers);
    let write = device.write_place(taken.layout);
    let next = write.put_if(area, told, dev_record(DEV_RESET, slot));
    device.producer.write_index = next.index;
    device.producer.current_slot = current_without(device.producer.current_slot, slot);
    device.taken = bits::clear(device.taken, slot);
    Ok(())
}

pub fn remove_rule(
    mut device: Device,
    geometry: Geometry,
    area: &mut [u8],
    page: &mut [u8],
    slot: u32,
) -> Outcome
    ensures { let removed = remove_of geometry device area.old page.old slot in
        (answer_of result.answer ≡ removed.outcome.answer) × (result.device ≡ removed.outcome.device)
        × (area.new ≡ removed.area) × (page.new ≡ removed.page) }
{
    let answer = remove(&mut device, geometry, area, page, slot);
    Outcome { answer, device }
}
