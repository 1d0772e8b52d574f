// A captured event page as text.
#![tactic(auto)]

ghost use Rattle.std.specs.Prelude.{◌≡◌, ◌++◌, ◌+◌, ◌*◌, ◌≤◌, ◌<◌, length, IfOk};
ghost use Rattle.records.specs.Ring.{Holds};
ghost use Rattle.records.specs.Unread.{records_from};
ghost use Rattle.answers.specs.Refusal.{answer_of};
ghost use Rattle.answers.specs.Refusals.{first_refusal};
ghost use Rattle.text.specs.Text.{decimal, Written};
ghost use Rattle.text.specs.Writer.{Adds};
ghost use Rattle.capture.specs.Listing.{record_line, record_lines, number_line, refusals, IsUnread, listing};

use answers::Refusal;
use geometry::Ring;
use records::{Event, RingIndex};
use text::Writer;

// A full page lists 510 records of at most 33 bytes.
pub const LISTING_LENGTH: usize = 20480;

// The ring of a page of records of 8 bytes.
const RING: Ring = Ring {
    record_size: 8,
    length: 511,
};

// Puts a number and the bytes after it.
fn write_number(writer: &mut Writer<'_>, number: u32, after: &[u8])
    requires { writer.old.end + 10 + length after.now ≤ length writer.old.out.now }
    ensures { Adds writer.old writer.new (decimal number ++ after.now) }
{
    writer.write_decimal(number);
    writer.write_text(after);
}

fn write_record(writer: &mut Writer<'_>, event: Event)
    requires { writer.old.end + 33 ≤ length writer.old.out.now }
    ensures { Adds writer.old writer.new (record_line event) }
{
    write_number(writer, event.kind as u32, b" ");
    write_number(writer, event.code as u32, b" ");
    write_number(writer, event.value, b"\n");
}

// Puts the lines of so many records from an index on.
fn write_records(writer: &mut Writer<'_>, area: &[u8], first: RingIndex, count: u32)
    requires holds { Holds (length area.now) first.ring }
    requires room { writer.old.end + count * 33 ≤ length writer.old.out.now }
    ensures { Adds writer.old writer.new (record_lines (records_from first.ring area.now first.index count)) }
{
    let mut index = first;
    for _ in 0..count {
        write_record(writer, index.record(area));
        index = index.next();
    }
}

// Puts a line of a word and a number.
fn write_line(writer: &mut Writer<'_>, word: &[u8], number: u32)
    requires { writer.old.end + length word.now + 11 ≤ length writer.old.out.now }
    ensures { Adds writer.old writer.new (number_line word.now number) }
{
    writer.write_text(word);
    write_number(writer, number, b"\n");
}

// Where the first unread record is, and how many there are. Length, read pointer, write pointer: three rows in this order, the last two
// about the very words that were read from the page.
#[tactic(auto, unfolding(answers::specs::Refusals::first_refusal))]
fn unread(input_length: usize, area: &[u8; 4096]) -> Result<(RingIndex, u32), Refusal>
    ensures answer { answer_of result ≡ first_refusal (refusals input_length area.now) }
    ensures ok { IfOk result (λ found. IsUnread found.0 found.1 area.now) }
{
    if input_length != geometry::PAGE_LENGTH {
        return Err(Refusal::Invalid);
    }
    let read = RingIndex::checked(RING, records::read_pointer(area)).ok_or(Refusal::BadIndex)?;
    let write = RingIndex::checked(RING, records::write_pointer(area)).ok_or(Refusal::BadIndex)?;
    Ok((read, read.unread_count(write.index)))
}

// Lists the unread records of a page, of which so many bytes were captured, at the front of the
// lent text. Answers the length of the listing.
// The lent array and the length beside it are the contract of this crate, which asks for no heap.
pub fn list(input_length: usize, area: &[u8; 4096], out: &mut [u8; 20480]) -> usize
    ensures written { Written out.old 0 (listing input_length area.now) out.new result }
    ensures upper_bound { result ≤ length out.new }
{
    let mut writer = Writer { out, end: 0 };
    writer.write_text(b"type code value\n");
    match unread(input_length, area) {
        Ok((first, count)) => {
            write_records(&mut writer, area, first, count);
            write_line(&mut writer, b"end ", count);
        }
        Err(refusal) => write_line(&mut writer, b"refused ", refusal.number() as u32),
    }
    writer.end
}
