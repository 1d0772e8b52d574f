// Puts an event of each kind on a page of the keyboard ring and prints the page, for tests/kbdif.test to compare with
// Xen's header.
#![tactic(auto)]

use answers::answer_of;
use kbdif_events::{EVENT_LENGTH, RingEvent};
use kbdif_page::{IN_CONS, PAGE_LENGTH};
use std::io;

// Both indices at first: the fourth event then goes to place 0.
const START: u32 = 48;

// in_cons stands at the page's first byte, and in_prod after it.
const INDICES_LENGTH: usize = 8;

const CONTACT_LIMIT: u32 = 32;

const EVENTS: [RingEvent; 9] = [
    RingEvent::Motion {
        x: -2,
        y: -305419896,
        z: -2147483648,
    },
    RingEvent::Key {
        pressed: true,
        keycode: 3735928559,
    },
    RingEvent::Pos {
        x: 16909060,
        y: -1,
        wheel: -120,
    },
    RingEvent::TouchDown {
        contact: 31,
        x: -32769,
        y: 2147483647,
    },
    RingEvent::TouchUp { contact: 30 },
    RingEvent::TouchMotion {
        contact: 16,
        x: 287454020,
        y: -65536,
    },
    RingEvent::TouchSyn { contact: 1 },
    RingEvent::TouchShape {
        contact: 2,
        major: 4294967295,
        minor: 2147483648,
    },
    RingEvent::TouchOrient {
        contact: 3,
        orientation: -180,
    },
];

// A line: where the bytes begin in the page, and the bytes.
fn print_bytes(rt: &impl Print, begin: usize, bytes: &[u8]) -> io::Result<()> {
    print!(rt; "{begin}:")?;
    for byte in bytes {
        print!(rt; " {byte}")?;
    }
    println!(rt; "")
}

// Prints the indices and each event. An event is found by its type, which isn't 0, so one in a wrong place is seen too.
fn print_page(rt: &impl Print, page: &[u8; PAGE_LENGTH]) -> io::Result<()> {
    print_bytes(rt, 0, &page[..INDICES_LENGTH])?;
    let mut next = INDICES_LENGTH;
    for (at, event) in page.windows(EVENT_LENGTH).enumerate() {
        if at >= next && event[0] != 0 {
            print_bytes(rt, at, event)?;
            next = at + EVENT_LENGTH;
        }
    }
    Ok(())
}

fn main(rt: HostRuntime) -> io::Result<()> {
    let mut page = [0; PAGE_LENGTH];
    let mut in_prod = START;
    words::write_u32(&mut page, IN_CONS, START);
    print!(rt; "answers:")?;
    for event in EVENTS {
        let mut bytes = [0; EVENT_LENGTH];
        event.encode(&mut bytes);
        let outcome = kbdif::put(&mut page, &mut in_prod, CONTACT_LIMIT, &bytes);
        print!(rt; " {}", answer_of(outcome))?;
    }
    println!(rt; "")?;
    print_page(&rt, &page)
}
