// A device added to a slot.
ghost use Rattle.std.specs.Prelude.{◌≡◌, IfOk};
ghost use Rattle.answers.specs.Refusal.{answer_of};
ghost use Rattle.hotplug.specs.Add.{add_answer, add_of};

use crate::tells;
use answers::Refusal;
use device::{Device, Outcome};
use geometry::{Geometry, Slot};
use records::codes::{DEV_CONF, dev_record};

// The slot that the entry may be added to.
#[tactic(auto, unfolding(crate::specs::Add::add_answer, answers::specs::Refusals::first_refusal))]
fn free_slot(
    device: &Device,
    geometry: Geometry,
    area: &[u8],
    page: &[u8],
    slot: u32,
    entry: &[u8],
) -> Result<Slot, Refusal>
    ensures tested { answer_of result ≡ add_answer geometry device.now area.now page.now slot entry.now }
    ensures same { IfOk result (λ free. (free.layout.geometry ≡ geometry) × (free.number ≡ slot)) }
{
    let layout = device
        .valid_call(geometry, area.len(), page.len())
        .ok_or(Refusal::Invalid)?;
    if entry.len() != layout.geometry.entry_size as usize {
        return Err(Refusal::Invalid);
    }
    let free = layout.slot(slot).ok_or(Refusal::BadSlot)?;
    if device.is_taken(slot) {
        return Err(Refusal::BadSlot);
    }
    if !entries::is_present(entry) {
        return Err(Refusal::Malformed);
    }
    let needed = bits::bit_of(tells(device.registers));
    device::check_room(device.write_place(layout), area, needed)?;
    Ok(free)
}

// Stores the lent entry, all of it, and tells the guest.
fn add(
    device: &mut Device,
    geometry: Geometry,
    area: &mut [u8],
    page: &mut [u8],
    slot: u32,
    entry: &[u8],
) -> Result<(), Refusal>
    ensures { let added = add_of geometry device.old area.old page.old slot entry.now in
        (answer_of result ≡ added.outcome.answer) × (device.new ≡ added.outcome.device)
        × (area.new ≡ added.area) × (page.new ≡ added.page) }
{
    let free = free_slot(&*device, geometry, &area[..], &page[..], slot, entry)?;
    entries::write_entry(free, page, entry);
    let told = tells(device.registers);
    let write = device.write_place(free.layout);
    let next = write.put_if(area, told, dev_record(DEV_CONF, slot));
    device.producer.write_index = next.index;
    device.taken = bits::set(device.taken, slot);
    Ok(())
}

pub fn add_rule(
    mut device: Device,
    geometry: Geometry,
    area: &mut [u8],
    page: &mut [u8],
    slot: u32,
    entry: &[u8],
) -> Outcome
    ensures { let added = add_of geometry device area.old page.old slot entry.now in
        (answer_of result.answer ≡ added.outcome.answer) × (result.device ≡ added.outcome.device)
        × (area.new ≡ added.area) × (page.new ≡ added.page) }
{
    let answer = add(&mut device, geometry, area, page, slot, entry);
    Outcome { answer, device }
}
