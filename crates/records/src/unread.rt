// What an index of the ring tells: the record there, the next index, and how far another is.
ghost use Rattle.std.specs.Prelude.{◌≡◌, ◌<◌, ltb, length, is_some, IfSome};
ghost use Rattle.records.specs.Ring.{Holds, next_index, unread_count, has_room};
ghost use Rattle.records.specs.Unread.{record_at};

use crate::{Event, RingIndex, decode};
use geometry::Ring;

impl RingIndex {
    // The number as an index of the ring, if it is one.
    pub fn checked(ring: Ring, index: u32) -> Option<RingIndex>
        ensures tested { is_some result ≡ ltb index ring.length }
        ensures same { IfSome result (λ at. (at.ring ≡ ring) × (at.index ≡ index)) }
    {
        if index < ring.length {
            Some(RingIndex { ring, index })
        } else {
            None
        }
    }

    // By a compare, since a division costs more than the rest of a put.
    pub fn next(self) -> RingIndex
        ensures { (result.ring ≡ self.ring) × (result.index ≡ next_index self.ring self.index) }
    {
        let next = self.index + 1;
        if next == self.ring.length {
            RingIndex {
                ring: self.ring,
                index: 0,
            }
        } else {
            RingIndex {
                ring: self.ring,
                index: next,
            }
        }
    }

    pub fn record(self, area: &[u8]) -> Event
        requires { Holds (length area.now) self.ring }
        ensures { result ≡ record_at self.ring area.now self.index }
    {
        decode(area, self.ring.record_place(self.index))
    }

    // How many records there are from here to another index.
    pub fn unread_count(self, write: u32) -> u32
        requires { write < self.ring.length }
        ensures { result ≡ unread_count self.ring self.index write }
    {
        if self.index <= write {
            write - self.index
        } else {
            self.ring.length - self.index + write
        }
    }

    // Whether so many more records fit, put from here on. Any count gets an answer.
    pub fn has_room(self, read: RingIndex, count: u32) -> bool
        requires { read.ring ≡ self.ring }
        ensures { result ≡ has_room self.ring read.index self.index count }
    {
        count <= self.ring.length - 1 - read.unread_count(self.index)
    }
}
