// What each kind of record does to the driver.
ghost use Rattle.std.specs.Prelude.{◌≡◌, false};
ghost use Rattle.assembly.specs.Told.{told_of};
ghost use Rattle.assembly.specs.Collect.{collected};
ghost use Rattle.assembly.specs.Transition.{spoiled as spoiled_of, moved, ended, reported, without_slot, receive as receive_of};

use crate::{Driver, Kind, PACKET_LENGTH, Told};
use answers::Refusal;
use geometry::Layout;
use records::Event;
use records::codes::NO_SLOT;

impl Driver {
    // A packet already begun is spoiled.
    #[tactic(auto, unfolding(crate::specs::Transition::spoiled))]
    fn spoil(&mut self)
        ensures { self.new ≡ spoiled_of self.old }
    {
        if self.held != 0 {
            self.spoiled = true;
        }
    }

    fn move_to(&mut self, slot: u32)
        ensures { self.new ≡ moved slot self.old }
    {
        self.spoil();
        self.slot = slot;
    }

    fn end(&mut self, ignoring: bool)
        ensures { self.new ≡ ended ignoring self.old }
    {
        self.held = 0;
        self.overlong = false;
        self.spoiled = false;
        self.ignoring = ignoring;
    }

    #[tactic(auto, unfolding(crate::specs::Transition::reported))]
    fn report(&self) -> Result<Told, Refusal>
        ensures { told_of result ≡ reported self.now }
    {
        if self.ignoring {
            Ok(Told::Gap)
        } else if self.spoiled || self.overlong {
            Err(Refusal::Malformed)
        } else if self.held == 0 {
            Ok(Told::EmptyReport)
        } else {
            Ok(Told::Packet {
                slot: self.slot,
                count: self.held,
            })
        }
    }

    // A report ends the packet that it tells.
    fn end_reported(&mut self) -> Result<Told, Refusal>
        ensures { (told_of result ≡ reported self.old) × (self.new ≡ ended false self.old) }
    {
        let told = self.report();
        self.end(false);
        told
    }

    #[tactic(auto, unfolding(crate::specs::Transition::without_slot))]
    fn leave(&mut self, slot: u32)
        ensures { self.new ≡ without_slot slot self.old }
    {
        if self.slot == slot {
            self.move_to(NO_SLOT);
        }
    }

    // One record. An event that joins the packet is written behind those that are held.
    #[tactic(auto, using(crate::proofs::Laws::Collect::none_joins))]
    pub fn receive(
        &mut self,
        layout: Layout,
        event: Event,
        packet: &mut [u8; PACKET_LENGTH],
    ) -> Result<Told, Refusal>
        ensures { let received = receive_of layout.geometry event self.old in
            (told_of result ≡ received.told) × (self.new ≡ received.driver)
            × (packet.new ≡ collected self.old received.driver event packet.old) }
    {
        let slot = event.value;
        match Kind::of(layout, event) {
            Kind::SynReport => self.end_reported(),
            Kind::SynDropped => {
                self.end(true);
                Ok(Told::Nothing)
            }
            Kind::DevSet => {
                self.move_to(slot);
                Ok(Told::Set(slot))
            }
            Kind::DevConf => Ok(Told::Conf(slot)),
            Kind::DevReset => {
                self.leave(slot);
                Ok(Told::Reset(slot))
            }
            Kind::DevResetAll => {
                self.move_to(NO_SLOT);
                Ok(Told::ResetAll)
            }
            Kind::BadDevSet => {
                self.move_to(NO_SLOT);
                Err(Refusal::Malformed)
            }
            Kind::BadDev => Err(Refusal::Malformed),
            Kind::Other => {
                self.join(event, packet);
                Ok(Told::Nothing)
            }
        }
    }
}
