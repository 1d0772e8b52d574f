// A device added to a slot or removed from it. While the device is on in revision 2, one record tells the guest of the slot.
#![tactic(auto)]

mod add;
mod remove;

ghost use Rattle.std.specs.Prelude.{◌≡◌};
ghost use Rattle.hotplug.specs.Hotplug as spec;

pub use add::add_rule;
use device::Registers;
pub use remove::remove_rule;

// Whether a call puts its record.
pub(crate) fn tells(registers: Registers) -> bool
    ensures { result ≡ spec.tells registers }
{
    registers.on && registers.client_rev == 2
}
