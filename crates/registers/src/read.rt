// A read of the BAR.
ghost use Rattle.std.specs.Prelude.{◌≡◌, false, cond, ◌+◌, ◌*◌, length};
ghost use Rattle.bits.specs.Bits.{bit_of};
ghost use Rattle.device.specs.Revision.{is_revision1};
ghost use Rattle.access.specs.Place.{place_of};
ghost use Rattle.access.specs.Access.{access_answer};
ghost use Rattle.registers.specs.Read.{value_of, told, read_of};

use access::{AREA_OFFSET, Place, place_read};
use answers::Refusal;
use device::{Device, Registers};
use geometry::Geometry;

const MAGIC: u32 = 0x584D_4F55;

fn revision(registers: Registers) -> u32
    ensures { result ≡ cond (is_revision1 registers) 1 2 }
{
    if registers.is_revision1() { 1 } else { 2 }
}

fn acceleration(registers: Registers) -> u32
    ensures { result ≡ cond (is_revision1 registers) registers.acceleration 0 }
{
    if registers.is_revision1() {
        registers.acceleration as u32
    } else {
        0
    }
}

fn control(registers: Registers) -> u32
    ensures { result ≡ bit_of registers.on + 2 * bit_of registers.interrupts }
{
    bits::bit_of(registers.on) + 2 * bits::bit_of(registers.interrupts)
}

// What stands at a place that a read was granted.
fn value_at(
    device: &Device,
    geometry: Geometry,
    area: &[u8],
    page: &[u8],
    offset: u64,
    place: Place,
) -> u32
    requires granted { access_answer geometry device.now (length area.now) (length page.now) false offset 4 ≡ 0 }
    requires placed { place ≡ place_of geometry offset }
    ensures { result ≡ value_of geometry device.now area.now page.now offset (place_of geometry offset) }
{
    match place {
        Place::Magic => MAGIC,
        Place::Rev => revision(device.registers),
        Place::Control => control(device.registers),
        Place::EventSize => geometry.record_size,
        Place::Npages => geometry.pages,
        Place::Acceleration => acceleration(device.registers),
        Place::Isr => bits::bit_of(device.registers.isr),
        Place::ConfSize => geometry.entry_size,
        Place::ClientRev => device.registers.client_rev as u32,
        Place::ReadPtr => words::read_u32(area, 0),
        Place::EventArea => words::read_u32(area, (offset - AREA_OFFSET) as usize),
        Place::EntryPage => {
            let start = AREA_OFFSET + geometry.area_length() as u64;
            words::read_u32(page, (offset - start) as usize)
        }
        Place::Nothing => 0,
    }
}

// Any offset, width, state and pages get an answer.
#[tactic(auto, unfolding(crate::specs::Read::read_of, access::specs::Access::access_answer, answers::specs::Refusals::first_refusal))]
pub fn read_rule(
    device: &Device,
    geometry: Geometry,
    area: &[u8],
    page: &[u8],
    offset: u64,
    width: u32,
) -> Result<u32, Refusal>
    ensures { told result ≡ read_of geometry device.now area.now page.now offset width }
{
    let layout = device
        .valid_call(geometry, area.len(), page.len())
        .ok_or(Refusal::Invalid)?;
    let place = place_read(layout, offset, width)?;
    Ok(value_at(device, geometry, area, page, offset, place))
}
