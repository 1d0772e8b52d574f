// Device entries in the entry page: written, zeroed, looked up, and what events they offer.
#![tactic(auto)]

mod offer;

ghost use Rattle.std.specs.Prelude.{◌≡◌, ◌≤◌, length, IfOk};
ghost use Rattle.answers.specs.Refusal.{answer_of};
ghost use Rattle.entries.specs.Entry.{entry_at, is_present, with_entry, without_entry};
ghost use Rattle.entries.specs.Lookup.{lookup_answer, lookup_part};

use answers::Refusal;
use geometry::{Geometry, PAGE_LENGTH, Slot};
use offer::has_type;
pub use offer::is_offered;
use records::codes::EV_SYN;

// The bytes of an entry that a driver knows, and where its mask of event types stands.
pub const KNOWN_LENGTH: usize = 68;

pub(crate) const EVBITS: usize = 40;

// Kept: that the page has 4096 bytes is a finding of the whole call's test. An array in its place would be made once more in a packet, an
// add and a remove, which know the length from there.
//
// Stores an entry in its slot's own stretch of the page.
pub fn write_entry(slot: Slot, page: &mut [u8], entry: &[u8])
    requires { (length page.old ≡ 4096) × (length entry.now ≡ slot.layout.geometry.entry_size) }
    ensures { page.new ≡ with_entry slot.layout.geometry slot.number entry.now page.old }
{
    let start = slot.entry_place();
    let end = start + slot.layout.geometry.entry_size as usize;
    copying::copy(&mut page[start..end], 0, entry);
}

// Zeroes an entry's own stretch of the page.
pub fn clear_entry(slot: Slot, page: &mut [u8])
    requires { length page.old ≡ 4096 }
    ensures { page.new ≡ without_entry slot.layout.geometry slot.number page.old }
{
    let start = slot.entry_place();
    let end = start + slot.layout.geometry.entry_size as usize;
    copying::clear(&mut page[start..end]);
}

pub fn is_present(entry: &[u8]) -> bool
    requires { 44 ≤ length entry.now }
    ensures { result ≡ is_present entry.now }
{
    has_type(entry, EV_SYN)
}

// The slot's own bytes of the page that a driver knows.
pub fn known_bytes(slot: Slot, page: &[u8]) -> &[u8; KNOWN_LENGTH]
    requires { length page.now ≡ 4096 }
    ensures { result.now ≡ entry_at slot.layout.geometry page.now slot.number }
{
    let start = slot.entry_place();
    page[start..start + KNOWN_LENGTH].as_array().unwrap()
}

// Hands back the slot's own 68 bytes of the page.
#[tactic(auto, unfolding(answers::specs::Refusals::first_refusal))]
pub fn lookup(geometry: Geometry, page: &[u8], slot: u32) -> Result<&[u8; KNOWN_LENGTH], Refusal>
    ensures answer { answer_of result ≡ lookup_answer geometry page.now slot }
    ensures part { IfOk result (λ part. part.now ≡ lookup_part geometry page.now slot) }
{
    let layout = geometry.layout().ok_or(Refusal::Invalid)?;
    if page.len() != PAGE_LENGTH {
        return Err(Refusal::Invalid);
    }
    let slot = layout.slot(slot).ok_or(Refusal::BadSlot)?;
    let entry = known_bytes(slot, page);
    if !is_present(entry) {
        return Err(Refusal::BadSlot);
    }
    Ok(entry)
}
