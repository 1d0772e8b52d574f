// A write to the BAR.
ghost use Rattle.std.specs.Prelude.{◌≡◌, length};
ghost use Rattle.answers.specs.Refusal.{answer_of};
ghost use Rattle.geometry.specs.Geometry.{ring_of};
ghost use Rattle.records.specs.Ring.{Holds};
ghost use Rattle.registers.specs.Write.{control_of, client_rev_for, client_rev_of, acceleration_of, effect_of, write_of};

use access::{Place, place_written};
use answers::Refusal;
use device::{Device, Outcome};
use geometry::{Geometry, Layout};

#[tactic(auto, unfolding(crate::specs::Write::control_of))]
fn write_control(
    device: &mut Device,
    layout: Layout,
    area: &mut [u8],
    value: u32,
) -> Result<(), Refusal>
    requires { Holds (length area.old) (ring_of layout.geometry) }
    ensures { let written = control_of layout.geometry device.old area.old value in
        (answer_of result ≡ written.outcome.answer) × (device.new ≡ written.outcome.device) × (area.new ≡ written.area) }
{
    let on = bits::is_set(value as u64, 0) && device.registers.may_run();
    let interrupts = bits::is_set(value as u64, 1);
    if on && !device.registers.on {
        return switch_on::start(device, layout, area, interrupts);
    }
    device.registers.on = on;
    device.registers.interrupts = interrupts;
    Ok(())
}

fn client_rev_for(value: u32) -> u16
    ensures { result ≡ client_rev_for value }
{
    match value {
        1 => 1,
        2 => 2,
        _ => 0,
    }
}

#[tactic(auto, unfolding(crate::specs::Write::client_rev_of))]
fn write_client_rev(device: &mut Device, value: u32)
    ensures { device.new ≡ client_rev_of device.old value }
{
    if !device.registers.on {
        device.registers.client_rev_written = true;
        device.registers.client_rev = client_rev_for(value);
    }
}

#[tactic(auto, unfolding(crate::specs::Write::acceleration_of))]
fn write_acceleration(device: &mut Device, value: u32)
    ensures { device.new ≡ acceleration_of device.old value }
{
    if device.registers.is_revision1() && device::is_acceleration(value) {
        device.registers.acceleration = value as u16;
    }
}

fn write_at(
    device: &mut Device,
    layout: Layout,
    area: &mut [u8],
    place: Place,
    value: u32,
) -> Result<(), Refusal>
    requires { Holds (length area.old) (ring_of layout.geometry) }
    ensures { let written = effect_of layout.geometry device.old area.old value place in
        (answer_of result ≡ written.outcome.answer) × (device.new ≡ written.outcome.device) × (area.new ≡ written.area) }
{
    match place {
        Place::Control => return write_control(device, layout, area, value),
        Place::Acceleration => write_acceleration(device, value),
        Place::Isr => device.registers.isr = false,
        Place::ClientRev => write_client_rev(device, value),
        Place::ReadPtr => records::set_read_pointer(area, value),
        _ => {}
    }
    Ok(())
}

// Any offset, width, value, state and pages get an answer. Of the entry page the length alone matters.
#[tactic(auto, unfolding(crate::specs::Write::write_of, access::specs::Access::access_answer, answers::specs::Refusals::first_refusal))]
fn write(
    device: &mut Device,
    geometry: Geometry,
    area: &mut [u8],
    page: &[u8],
    offset: u64,
    width: u32,
    value: u32,
) -> Result<(), Refusal>
    ensures { let written = write_of geometry device.old area.old (length page.now) offset width value in
        (answer_of result ≡ written.outcome.answer) × (device.new ≡ written.outcome.device) × (area.new ≡ written.area) }
{
    let layout = device
        .valid_call(geometry, area.len(), page.len())
        .ok_or(Refusal::Invalid)?;
    let place = place_written(layout, offset, width)?;
    write_at(device, layout, area, place, value)
}

pub fn write_rule(
    mut device: Device,
    geometry: Geometry,
    area: &mut [u8],
    page: &[u8],
    offset: u64,
    width: u32,
    value: u32,
) -> Outcome
    ensures { let written = write_of geometry device area.old (length page.now) offset width value in
        (answer_of result.answer ≡ written.outcome.answer) × (result.device ≡ written.outcome.device) × (area.new ≡ written.area) }
{
    let answer = write(&mut device, geometry, area, page, offset, width, value);
    Outcome { answer, device }
}
