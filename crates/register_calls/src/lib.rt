// A guest's accesses to the registers and the pages, which a host catches and passes on. The device's state stands in one place and is
// changed there: a write lends it to a rule by value and stores what comes back.
#![tactic(auto)]

ghost use Rattle.std.specs.Prelude.{◌≡◌, length};
ghost use Rattle.registers.specs.Read.{read_of};
ghost use Rattle.registers.specs.Write.{write_of};

use answers::answer_of;
use device::Device;
use geometry::Geometry;
use registers::Value;

#[unsafe(no_mangle)]
pub extern "C" fn thayarqo_read(
    device: &Device,
    geometry: Geometry,
    area: &[u8],
    page: &[u8],
    offset: u64,
    width: u32,
) -> Value
    ensures { result ≡ read_of geometry device.now area.now page.now offset width }
{
    registers::read_rule(device, geometry, area, page, offset, width).into()
}

#[unsafe(no_mangle)]
pub extern "C" fn thayarqo_write(
    device: &mut Device,
    geometry: Geometry,
    area: &mut [u8],
    page: &[u8],
    offset: u64,
    width: u32,
    value: u32,
) -> u8
    ensures { let written = write_of geometry device.old area.old (length page.now) offset width value in
        (result ≡ written.outcome.answer) × (device.new ≡ written.outcome.device) × (area.new ≡ written.area) }
{
    let out = registers::write_rule(*device, geometry, area, page, offset, width, value);
    *device = out.device;
    answer_of(out.answer)
}
