// Copy-out: the oldest records, several at a time.
#![tactic(auto)]

ghost use Rattle.std.specs.Prelude.{◌≡◌, ◌+◌, ◌*◌, ◌%◌, ◌≤◌, ◌<◌, length, IfOk};
ghost use Rattle.copying.specs.Copying.{overwrite};
ghost use Rattle.geometry.specs.Geometry.{ring_of};
ghost use Rattle.records.specs.Ring.{Holds, read_pointer, unread_count};
ghost use Rattle.copy_out.specs.CopyOut.{bytes_from, copied_of, copy_of};

use answers::{DONE, Refusal};
use geometry::Geometry;
use reading::{area_layout, oldest_index};
use records::RingIndex;

// What a copy-out answers, and how many records it copied. Kept beside the Result: `thayarqo_copy_out` answers this struct.
#[repr(C)]
#[derive(Clone, Copy)]
pub struct Copied {
    pub answer: u8,
    pub count: u32,
}

// Kept apart from the other structs of C: one conversion for all would need a trait that sets the fields of each.
impl From<Result<u32, Refusal>> for Copied {
    ghost from_gives = { λ outcome copied. copied ≡ copied_of outcome };

    fn from(outcome: Result<u32, Refusal>) -> Copied {
        match outcome {
            Ok(count) => Copied {
                answer: DONE,
                count,
            },
            Err(refusal) => Copied {
                answer: refusal.number(),
                count: 0,
            },
        }
    }
}

// Copies the first eight bytes of so many records, none of them past the ring's end.
fn copy_run(from: RingIndex, area: &[u8], count: u32, out: &mut [u8])
    requires holds { Holds (length area.now) from.ring }
    requires count_bound { (from.index + count ≤ from.ring.length) × (count * 8 ≤ length out.old) }
    ensures { out.new ≡ overwrite out.old 0 (bytes_from from.ring area.now from.index count) }
{
    let first = from.ring.record_place(from.index);
    let record_size = from.ring.record_size as usize;
    // By index: of a slice that is lent out in chunks a proof knows the length alone. A place by `record_place` costs twice as much.
    for i in 0..count as usize {
        let place = first + i * record_size;
        copying::copy_eight(out, i * 8, &area[place..place + 8]);
    }
}

// Copies the records up to the ring's end, then those from its start on, and answers the index after them.
fn copy_records(from: RingIndex, area: &[u8], count: u32, out: &mut [u8]) -> u32
    requires holds { Holds (length area.now) from.ring }
    requires count_bound { (count < from.ring.length) × (count * 8 ≤ length out.old) }
    ensures { (result ≡ (from.index + count) % from.ring.length)
        × (out.new ≡ overwrite out.old 0 (bytes_from from.ring area.now from.index count)) }
{
    let until = from.ring.length - from.index;
    if count < until {
        copy_run(from, area, count, out);
        return from.index + count;
    }
    let rest = count - until;
    let start = RingIndex {
        ring: from.ring,
        index: 0,
    };
    let at = until as usize * 8;
    copy_run(from, area, until, out);
    copy_run(start, area, rest, &mut out[at..at + rest as usize * 8]);
    rest
}

// Each pointer is fetched once. The count is the number of records copied, and how far the read pointer moved.
pub fn copy_out(
    geometry: Geometry,
    area: &mut [u8],
    limit: u32,
    out: &mut [u8],
) -> Result<u32, Refusal>
    ensures { let copy = copy_of geometry area.old limit out.old in
        (copied_of result ≡ copy.copied) × ((area.new ≡ copy.area) × ((out.new ≡ copy.out)
        × IfOk result (λ count. count ≡ unread_count (ring_of geometry) (read_pointer area.old) (read_pointer area.new)))) }
{
    let layout = area_layout(geometry, area.len())?;
    let write = records::write_pointer(&area[..]);
    let read = oldest_index(layout.ring(), records::read_pointer(&area[..]), write)?;
    let unread = read.unread_count(write);
    let most = (limit as usize).min(out.len() / 8);
    let count = (unread as usize).min(most) as u32;
    let next = copy_records(read, &area[..], count, out);
    records::set_read_pointer(area, next);
    Ok(count)
}
