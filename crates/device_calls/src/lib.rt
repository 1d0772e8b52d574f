// The calls of a host. The device's state stands in one place and is changed there: each call lends it to a rule by value and stores
// what comes back.
#![tactic(auto)]

ghost use Rattle.std.specs.Prelude.{◌≡◌};
ghost use Rattle.device.specs.State.{fresh_device};
ghost use Rattle.packets.specs.Rule.{packet_of};
ghost use Rattle.hotplug.specs.Add.{add_of};
ghost use Rattle.hotplug.specs.Remove.{remove_of};

use answers::answer_of;
use device::Device;
use geometry::Geometry;

#[unsafe(no_mangle)]
pub extern "C" fn thayarqo_fresh_device() -> Device
    ensures { result ≡ fresh_device }
{
    Device::fresh()
}

#[unsafe(no_mangle)]
pub extern "C" fn thayarqo_put_packet(
    device: &mut Device,
    geometry: Geometry,
    area: &mut [u8],
    page: &[u8],
    slot: u32,
    packet: &[u8],
) -> u8
    ensures { let put = packet_of geometry device.old area.old page.now slot packet.now in
        (result ≡ put.outcome.answer) × (device.new ≡ put.outcome.device) × (area.new ≡ put.area) }
{
    let out = packets::packet_rule(*device, geometry, area, page, slot, packet);
    // All that a packet changes. To store the rest, too, it would have to be held through the call.
    device.registers.isr = out.device.registers.isr;
    device.producer = out.device.producer;
    answer_of(out.answer)
}

#[unsafe(no_mangle)]
pub extern "C" fn thayarqo_add(
    device: &mut Device,
    geometry: Geometry,
    area: &mut [u8],
    page: &mut [u8],
    slot: u32,
    entry: &[u8],
) -> u8
    ensures { let added = add_of geometry device.old area.old page.old slot entry.now in
        (result ≡ added.outcome.answer) × (device.new ≡ added.outcome.device)
        × (area.new ≡ added.area) × (page.new ≡ added.page) }
{
    let out = hotplug::add_rule(*device, geometry, area, page, slot, entry);
    *device = out.device;
    answer_of(out.answer)
}

#[unsafe(no_mangle)]
pub extern "C" fn thayarqo_remove(
    device: &mut Device,
    geometry: Geometry,
    area: &mut [u8],
    page: &mut [u8],
    slot: u32,
) -> u8
    ensures { let removed = remove_of geometry device.old area.old page.old slot in
        (result ≡ removed.outcome.answer) × (device.new ≡ removed.outcome.device)
        × (area.new ≡ removed.area) × (page.new ≡ removed.page) }
{
    let out = hotplug::remove_rule(*device, geometry, area, page, slot);
    *device = out.device;
    answer_of(out.answer)
}
