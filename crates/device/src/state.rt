// A fresh state, and the rules of a state that no size decides.
ghost use Rattle.std.specs.Prelude.{◌≡◌, ◌&&◌};
ghost use Rattle.device.specs.State.{fresh_registers, fresh_producer, fresh_device, is_taken, is_acceleration};
ghost use Rattle.device.specs.State.{client_rev_rule, acceleration_rule, current_rule};

use crate::{Device, Producer, Registers};
use records::codes::NO_SLOT;
use revision1_records::Position;

pub fn is_acceleration(value: u32) -> bool
    ensures { result ≡ is_acceleration value }
{
    1 <= value && value <= 20
}

impl Registers {
    fn fresh() -> Registers
        ensures { result ≡ fresh_registers }
    {
        Registers {
            on: false,
            interrupts: false,
            isr: false,
            client_rev_written: false,
            client_rev: 0,
            acceleration: 10,
        }
    }
}

impl Producer {
    pub fn fresh() -> Producer
        ensures { result ≡ fresh_producer }
    {
        Producer {
            write_index: 0,
            current_slot: NO_SLOT,
            position: Position { x: 0, y: 0 },
            lost: false,
        }
    }
}

impl Device {
    pub fn fresh() -> Device
        ensures { result ≡ fresh_device }
    {
        Device {
            registers: Registers::fresh(),
            producer: Producer::fresh(),
            taken: 0,
        }
    }

    pub fn is_taken(&self, slot: u32) -> bool
        ensures { result ≡ is_taken self.now.taken slot }
    {
        bits::is_set(self.taken, slot)
    }

    #[tactic(auto, unfolding(crate::specs::State::current_rule))]
    fn keeps_current_rule(&self) -> bool
        ensures { result ≡ current_rule self.now.taken self.now.producer.current_slot }
    {
        let slot = self.producer.current_slot;
        slot == NO_SLOT || self.is_taken(slot)
    }

    pub fn keeps_rules(&self) -> bool
        ensures { result ≡ (client_rev_rule self.now.registers && (acceleration_rule self.now.registers
            && current_rule self.now.taken self.now.producer.current_slot)) }
    {
        self.registers.keeps_client_rev_rule()
            && is_acceleration(self.registers.acceleration as u32)
            && self.keeps_current_rule()
    }
}
