// A geometry that is allowed, and what only such a one has: a ring, and slots.
ghost use Rattle.std.specs.Prelude.{◌≡◌, ◌<◌, true, leb, ltb, is_some, IfSome};
ghost use Rattle.geometry.specs.Geometry.{allowed, ring_length, ring_of, slot_count, entry_place};

use crate::{Geometry, Ring};

// A geometry that was found to be allowed.
#[derive(Clone, Copy)]
pub struct Layout {
    pub geometry: Geometry,
    ghost is_allowed: { allowed geometry ≡ true },
}

// A slot that is in range. Its entry ends within the page.
#[derive(Clone, Copy)]
pub struct Slot {
    pub layout: Layout,
    pub number: u32,
    ghost in_range: { number < slot_count layout.geometry },
}

impl Geometry {
    // The geometry as one that is known to be allowed, if it is.
    pub fn layout(self) -> Option<Layout>
        ensures tested { is_some result ≡ allowed self }
        ensures same { IfSome result (λ layout. layout.geometry ≡ self) }
    {
        if self.is_allowed() {
            Some(Layout { geometry: self })
        } else {
            None
        }
    }
}

impl Layout {
    // Record sizes are powers of two, so a shift divides by them.
    fn ring_length(self) -> u32
        ensures { result ≡ ring_length self.geometry }
    {
        (self.geometry.pages * 4096 >> self.geometry.record_size.trailing_zeros()) - 1
    }

    pub fn ring(self) -> Ring
        ensures { result ≡ ring_of self.geometry }
    {
        Ring {
            record_size: self.geometry.record_size,
            length: self.ring_length(),
        }
    }

    // The number as a slot, if it is one.
    pub fn slot(self, number: u32) -> Option<Slot>
        ensures tested { is_some result ≡ ltb number (slot_count self.geometry) }
        ensures same { IfSome result (λ slot. (slot.layout ≡ self) × (slot.number ≡ number)) }
    {
        if self.is_slot(number) {
            Some(Slot {
                layout: self,
                number,
            })
        } else {
            None
        }
    }

    // Asked for at switch-on alone. Whether a slot is in range takes no division.
    pub fn slot_count(self) -> u32
        ensures { result ≡ slot_count self.geometry }
    {
        4096 / self.geometry.entry_size
    }

    // Whether there are so many slots: their entries end within the page.
    pub fn has_slots(self, count: u32) -> bool
        ensures { result ≡ leb count (slot_count self.geometry) }
    {
        self.geometry.entry_size as u64 * count as u64 <= 4096
    }

    // The slot's entry ends within the page.
    pub fn is_slot(self, slot: u32) -> bool
        ensures { result ≡ ltb slot (slot_count self.geometry) }
    {
        self.geometry.entry_size as u64 * (slot as u64 + 1) <= 4096
    }
}

impl Slot {
    pub fn entry_place(self) -> usize
        ensures { result ≡ entry_place self.layout.geometry self.number }
    {
        self.layout.geometry.entry_place(self.number)
    }
}
