// The events of the packet that a driver collects.
ghost use Rattle.std.specs.Prelude.{◌≡◌};
ghost use Rattle.assembly.specs.Collect.{collected};
ghost use Rattle.assembly.specs.Transition.{joined};

use crate::Driver;
use records::{Event, MOST_EVENTS};

// MOST_EVENTS events of eight bytes.
pub const PACKET_LENGTH: usize = 256;

impl Driver {
    // An event joins the packet: it is written behind those that are held. Nothing is written while events are ignored, nor after
    // the 32nd.
    pub(crate) fn join(&mut self, event: Event, packet: &mut [u8; PACKET_LENGTH])
        ensures { (self.new ≡ joined self.old) × (packet.new ≡ collected self.old (joined self.old) event packet.old) }
    {
        if self.ignoring {
            return;
        }
        if self.held >= MOST_EVENTS {
            self.overlong = true;
            return;
        }
        let at = self.held as usize * 8;
        records::encode(&mut packet[at..at + 8], event);
        self.held += 1;
    }
}
