// Records put one after the other, each published by WRITE_PTR.
ghost use Rattle.std.specs.Prelude.{◌≡◌, [], ◌∷◌, length};
ghost use Rattle.records.specs.Packet.{events_of};
ghost use Rattle.records.specs.Ring.{Holds};
ghost use Rattle.records.specs.Put.{record_if};
ghost use Rattle.records.specs.Index.{PutFrom};

use crate::{Event, RingIndex, decode, encode, set_write_pointer};

// Kept: the area stays a parameter with `Holds`. Those that only read it ask for `Holds` too (`record`, `check_room`, `copy_run`), and a
// struct that borrows it to put, as `text::Writer` borrows a text, would be a second form beside theirs.
impl RingIndex {
    // Puts one record, and answers the index of the next one.
    pub fn put(self, area: &mut [u8], event: Event) -> RingIndex
        requires { Holds (length area.old) self.ring }
        ensures { PutFrom self (event ∷ []) area.old area.new result }
    {
        let at = self.ring.record_place(self.index);
        encode(&mut area[at..at + 8], event);
        let next = self.next();
        set_write_pointer(area, next.index);
        next
    }

    // Puts the record or none.
    #[tactic(auto, using(crate::proofs::Laws::PutFrom::one_given))]
    pub fn put_if(self, area: &mut [u8], given: bool, event: Event) -> RingIndex
        requires { Holds (length area.old) self.ring }
        ensures { PutFrom self (record_if given event) area.old area.new result }
    {
        if given { self.put(area, event) } else { self }
    }

    // Puts a packet's events. They are lent as bytes, so that none is copied before it is put.
    pub fn put_events(self, area: &mut [u8], packet: &[u8]) -> RingIndex
        requires { Holds (length area.old) self.ring }
        ensures { PutFrom self (events_of packet.now) area.old area.new result }
    {
        let mut at = self;
        for i in 0..packet.len() / 8 {
            at = at.put(area, decode(packet, i * 8));
        }
        at
    }
}
