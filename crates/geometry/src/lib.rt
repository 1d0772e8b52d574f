// The sizes of a device, and what follows from them. What every call needs is found without a division.
#![tactic(auto)]

mod layout;

ghost use Rattle.std.specs.Prelude.{◌≡◌, ◌*◌};
ghost use Rattle.geometry.specs.Geometry.{is_record_size, is_entry_size, allowed, area_length, bar_length};
ghost use Rattle.geometry.specs.Geometry.{record_place, entry_place};

pub use layout::{Layout, Slot};

pub const PAGE_LENGTH: usize = 4096;

// Event pages, bytes of a record, bytes of an entry.
#[repr(C)]
#[derive(Clone, Copy)]
pub struct Geometry {
    pub pages: u32,
    pub record_size: u32,
    pub entry_size: u32,
}

// The ring of event records in the event area: bytes of a record, and how many records.
#[derive(Clone, Copy)]
pub struct Ring {
    pub record_size: u32,
    pub length: u32,
}

// Kept here and below: bounds as compares, of which one test is made. A range's `contains` would leave two and a jump between them, which
// takes 3 to 9 instructions more in each call that is told a geometry.
//
// The powers of two from 8 to 64. Four compares would become a test by counted zeros, which takes more instructions.
#[tactic(auto, unfolding(crate::specs::Geometry::is_record_size), using(crate::proofs::Laws::Powers::powers))]
fn is_record_size(size: u32) -> bool
    ensures { result ≡ is_record_size size }
{
    8 <= size && size <= 64 && size & (size - 1) == 0
}

#[tactic(auto, unfolding(crate::specs::Geometry::is_entry_size))]
fn is_entry_size(size: u32) -> bool
    ensures { result ≡ is_entry_size size }
{
    68 <= size && size <= 256 && size % 4 == 0
}

impl Geometry {
    #[tactic(auto, unfolding(crate::specs::Geometry::allowed))]
    pub fn is_allowed(self) -> bool
        ensures { result ≡ allowed self }
    {
        1 <= self.pages
            && self.pages <= 8
            && is_entry_size(self.entry_size)
            && is_record_size(self.record_size)
    }

    pub fn area_length(self) -> usize
        ensures { result ≡ area_length self }
    {
        self.pages as usize * PAGE_LENGTH
    }

    pub fn bar_length(self) -> u64
        ensures { result ≡ bar_length self }
    {
        (self.pages as u64 + 2) * 4096
    }

    pub fn entry_place(self, slot: u32) -> usize
        ensures { result ≡ entry_place self slot }
    {
        self.entry_size as usize * slot as usize
    }
}

impl Ring {
    // Any index and any record size have a place: the product of two 32-bit numbers fits.
    pub fn record_place(self, index: u32) -> usize
        ensures { result ≡ record_place self index }
    {
        self.record_size as usize * (index as usize + 1)
    }
}
