// What every call of the device is told and lent: the geometry, the state, the event area and the entry page.
ghost use Rattle.std.specs.Prelude.{◌≡◌, ◌<◌, is_some, IfSome};
ghost use Rattle.geometry.specs.Geometry.{ring_length, ring_of};
ghost use Rattle.records.specs.Ring.{Holds};
ghost use Rattle.device.specs.Call.{is_valid_pages, is_valid_bounds, is_valid_call};

use crate::Device;
use geometry::{Geometry, Layout, PAGE_LENGTH};
use records::RingIndex;

// Kept: the state, the geometry, the area and the page go side by side through every rule, since C lends each by itself, and each call
// borrows them in its own way (`thayarqo_read` to read all, `thayarqo_add` to write three).
//
// The geometry as an allowed one, if it is, and both pages have their lengths.
#[tactic(auto, unfolding(crate::specs::Call::is_valid_pages))]
fn valid_pages(geometry: Geometry, area_size: usize, page_size: usize) -> Option<Layout>
    ensures tested { is_some result ≡ is_valid_pages geometry area_size page_size }
    ensures same { IfSome result (λ layout. layout.geometry ≡ geometry) }
{
    if area_size == geometry.area_length() && page_size == PAGE_LENGTH {
        geometry.layout()
    } else {
        None
    }
}

// And the numbers of the state that the geometry bounds are within it. It takes these numbers alone, so that they can be asked about
// without a state.
#[tactic(auto, using(bits::proofs::Laws::length_limit), unfolding(crate::specs::Call::is_valid_bounds))]
pub fn valid_bounds(
    geometry: Geometry,
    area_size: usize,
    page_size: usize,
    write_index: u32,
    taken: u64,
) -> Option<Layout>
    ensures tested { is_some result ≡ is_valid_bounds geometry area_size page_size write_index taken }
    ensures same { IfSome result (λ layout. layout.geometry ≡ geometry) }
{
    let layout = valid_pages(geometry, area_size, page_size)?;
    if write_index < layout.ring().length && layout.has_slots(bits::length(taken)) {
        Some(layout)
    } else {
        None
    }
}

impl Device {
    // The geometry as an allowed one, if the call's geometry, lent lengths and state are right.
    #[tactic(auto, using(crate::proofs::Laws::Call::call, crate::proofs::Laws::Call::call_tests))]
    pub fn valid_call(
        &self,
        geometry: Geometry,
        area_size: usize,
        page_size: usize,
    ) -> Option<Layout>
        ensures tested { is_some result ≡ is_valid_call geometry self.now area_size page_size }
        ensures same { IfSome result (λ layout. layout.geometry ≡ geometry) }
        ensures inside { IfSome result (λ layout. self.now.producer.write_index < ring_length layout.geometry) }
        ensures whole_page { IfSome result (λ _. page_size ≡ 4096) }
        ensures holds { IfSome result (λ layout. Holds area_size (ring_of layout.geometry)) }
    {
        let index = self.producer.write_index;
        let layout = valid_bounds(geometry, area_size, page_size, index, self.taken)?;
        if self.keeps_rules() {
            Some(layout)
        } else {
            None
        }
    }

    // Where the next record is put. Kept: that the write index is inside the ring stays a clause of those that are given a layout. An
    // index of the ring beside the device would need a clause that it is this device's.
    pub fn write_place(&self, layout: Layout) -> RingIndex
        requires { self.now.producer.write_index < ring_length layout.geometry }
        ensures { (result.ring ≡ ring_of layout.geometry) × (result.index ≡ self.now.producer.write_index) }
    {
        RingIndex {
            ring: layout.ring(),
            index: self.producer.write_index,
        }
    }
}
