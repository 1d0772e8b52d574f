// What a call that reads records is lent, when it is refused, and the oldest record.
#![tactic(auto)]

ghost use Rattle.std.specs.Prelude.{◌≡◌, ◌<◌, length, is_ok, IfOk, IfErr, MatchResult};
ghost use Rattle.answers.specs.declared.Refusal.TheVariants.{Invalid};
ghost use Rattle.answers.specs.Refusal.{number_of, answer_of};
ghost use Rattle.geometry.specs.Geometry.{ring_of};
ghost use Rattle.records.specs.Ring.{Holds, read_pointer, with_read_pointer, next_index};
ghost use Rattle.reading.specs.Oldest.{Record, Refused, oldest_of, refusal_of};
ghost use Rattle.reading.specs.Reading.{is_valid_area, reading_refusal};

use answers::Refusal;
use geometry::{Geometry, Layout, Ring};
use records::{Event, RingIndex};

// The geometry as a layout, if it is allowed and its event area has so many bytes.
#[tactic(auto, unfolding(crate::specs::Reading::is_valid_area))]
pub fn area_layout(geometry: Geometry, area_size: usize) -> Result<Layout, Refusal>
    ensures tested { is_ok result ≡ is_valid_area geometry area_size }
    ensures same { IfOk result (λ layout. layout.geometry ≡ geometry) }
    ensures holds { IfOk result (λ layout. Holds area_size (ring_of geometry)) }
    ensures refused { IfErr result (λ refusal. refusal ≡ Invalid) }
{
    let Some(layout) = geometry.layout() else {
        return Err(Refusal::Invalid);
    };
    if area_size == geometry.area_length() {
        Ok(layout)
    } else {
        Err(Refusal::Invalid)
    }
}

// Where reading begins. Equal indices are both in range where one is. Told before the write index is tested, they cost a step fewer
// instructions.
pub fn oldest_index(ring: Ring, read: u32, write: u32) -> Result<RingIndex, Refusal>
    ensures answered { answer_of result ≡ reading_refusal ring read write }
    ensures same { IfOk result (λ at. (at.ring ≡ ring) × (at.index ≡ read)) }
    ensures in_ring { IfOk result (λ at. write < ring.length) }
{
    let Some(at) = RingIndex::checked(ring, read) else {
        return Err(Refusal::BadIndex);
    };
    if read == write {
        return Err(Refusal::NothingToRead);
    }
    if write >= ring.length {
        return Err(Refusal::BadIndex);
    }
    Ok(at)
}

// Each pointer is fetched once: what was tested is what is used.
#[tactic(auto, unfolding(crate::specs::Oldest::oldest_of))]
pub fn read_oldest(ring: Ring, area: &[u8]) -> Result<(RingIndex, Event), Refusal>
    requires { Holds (length area.now) ring }
    ensures same_ring { IfOk result (λ oldest. oldest.0.ring ≡ ring) }
    ensures read { MatchResult result
        (λ oldest. oldest_of ring area.now ≡ Record oldest.0.index oldest.1)
        (λ refusal. oldest_of ring area.now ≡ Refused (number_of refusal)) }
    ensures answered { answer_of result ≡ refusal_of (oldest_of ring area.now) }
{
    let at = oldest_index(
        ring,
        records::read_pointer(area),
        records::write_pointer(area),
    )?;
    Ok((at, at.record(area)))
}

// Reads the oldest record and moves past it.
pub fn take_oldest(ring: Ring, area: &mut [u8]) -> Result<Event, Refusal>
    requires { Holds (length area.old) ring }
    ensures taken { IfOk result (λ event. (oldest_of ring area.old ≡ Record (read_pointer area.old) event)
        × (area.new ≡ with_read_pointer area.old (next_index ring (read_pointer area.old)))) }
    ensures refused { IfErr result (λ refusal. (oldest_of ring area.old ≡ Refused (number_of refusal)) × (area.new ≡ area.old)) }
{
    let (at, event) = read_oldest(ring, &area[..])?;
    records::set_read_pointer(area, at.next().index);
    Ok(event)
}
