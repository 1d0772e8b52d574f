// The device switched on: the ring starts anew, in revision 2 with a record for each taken slot.
#![tactic(auto)]

ghost use Rattle.std.specs.Prelude.{◌≡◌, map, ◌≤◌, length};
ghost use Rattle.answers.specs.Refusal.{answer_of};
ghost use Rattle.geometry.specs.Geometry.{ring_of};
ghost use Rattle.records.specs.Codes.{dev_conf, dev_record};
ghost use Rattle.records.specs.Ring.{Holds};
ghost use Rattle.records.specs.Index.{PutFrom};
ghost use Rattle.switch_on.specs.SwitchOn.{taken_from, records_at_start, cleared_pointers, switch_on};

use answers::Refusal;
use device::{Device, Producer, Revision};
use geometry::Layout;
use records::RingIndex;
use records::codes::{ALL_SLOTS, DEV_CONF, DEV_RESET, dev_record};

// Kept: the taken slots and how many slots there are go side by side here alone, from one call that knows both.
fn taken_count(taken: u64, slots: u32) -> u32
    ensures { result ≡ length (taken_from taken 0 slots) }
{
    let mut count: u32 = 0;
    for slot in 0..slots {
        count += bits::bit_of(bits::is_set(taken, slot));
    }
    count
}

// How many records the ring begins with.
fn start_count(revision: Revision, taken: u64, slots: u32) -> u32
    requires { slots ≤ 60 }
    ensures { result ≡ length (records_at_start revision taken slots) }
{
    match revision {
        Revision::One => 0,
        Revision::Two => taken_count(taken, slots) + 1,
    }
}

fn clear_pointers(area: &mut [u8])
    requires { 8 ≤ length area.old }
    ensures { area.new ≡ cleared_pointers area.old }
{
    records::set_read_pointer(area, 0);
    records::set_write_pointer(area, 0);
}

fn put_slots(first: RingIndex, area: &mut [u8], taken: u64, slots: u32) -> RingIndex
    requires { Holds (length area.old) first.ring }
    ensures { PutFrom first (map (dev_record dev_conf) (taken_from taken 0 slots)) area.old area.new result }
{
    let mut at = first;
    for slot in 0..slots {
        at = at.put_if(area, bits::is_set(taken, slot), dev_record(DEV_CONF, slot));
    }
    at
}

// Puts the records that the ring begins with.
fn put_start(
    first: RingIndex,
    area: &mut [u8],
    revision: Revision,
    taken: u64,
    slots: u32,
) -> RingIndex
    requires { Holds (length area.old) first.ring }
    ensures { PutFrom first (records_at_start revision taken slots) area.old area.new result }
{
    match revision {
        Revision::One => first,
        Revision::Two => {
            let next = first.put(area, dev_record(DEV_RESET, ALL_SLOTS));
            put_slots(next, area, taken, slots)
        }
    }
}

pub fn start(
    device: &mut Device,
    layout: Layout,
    area: &mut [u8],
    interrupts: bool,
) -> Result<(), Refusal>
    requires { Holds (length area.old) (ring_of layout.geometry) }
    ensures { let started = switch_on layout.geometry device.old area.old interrupts in
        (answer_of result ≡ started.outcome.answer) × (device.new ≡ started.outcome.device) × (area.new ≡ started.area) }
{
    let ring = layout.ring();
    let slots = layout.slot_count();
    let revision = device.registers.revision();
    let count = start_count(revision, device.taken, slots);
    if count > ring.length - 1 {
        return Err(Refusal::NoRoom);
    }
    clear_pointers(area);
    let first = RingIndex { ring, index: 0 };
    let next = put_start(first, area, revision, device.taken, slots);
    device.registers.on = true;
    device.registers.interrupts = interrupts;
    device.producer = Producer {
        write_index: next.index,
        ..Producer::fresh()
    };
    Ok(())
}
