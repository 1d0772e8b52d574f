// Lists the unread records of a captured event page, which comes on standard input.
#![tactic(auto)]

ghost use Rattle.std.specs.Prelude.{◌≤◌, length, IfOk};

use std::io::{self, Read};

// Reads until the lent bytes are full or the input ends, and answers how many were read. Kept: `read_to_end` needs the heap, and `io::copy`
// a buffer of its own.
fn read_full(input: &mut impl Read, bytes: &mut [u8]) -> io::Result<usize>
    ensures { IfOk result (λ count. count ≤ length bytes.new) }
{
    let mut done = 0;
    for _ in 0..bytes.len() {
        let count = input.read(&mut bytes[done..])?;
        done += count;
        if count == 0 || done == bytes.len() {
            break;
        }
    }
    Ok(done)
}

// Whether the input goes on after the page. Only a page read in full can be followed by more.
fn input_goes_on(input: &mut impl Read, page_bytes: usize) -> io::Result<usize>
    ensures { IfOk result (λ more. more ≤ 1) }
{
    if page_bytes < geometry::PAGE_LENGTH {
        return Ok(0);
    }
    read_full(input, &mut [0; 1])
}

fn main(rt: HostRuntime) -> io::Result<()> {
    let mut input = rt.stdin();
    let mut area = [0; 4096];
    let page_bytes = read_full(&mut input, &mut area)?;
    let input_length = page_bytes + input_goes_on(&mut input, page_bytes)?;
    let mut text = [0; capture::LISTING_LENGTH];
    let length = capture::list(input_length, &area, &mut text);
    rt.write_all(&text[..length])
}
