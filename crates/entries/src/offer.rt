// Whether an entry offers an event: its type is told by compares, then one word is read for the code and one bit tested.
ghost use Rattle.std.specs.Prelude.{◌≡◌, ◌&&◌, ◌+◌, ◌*◌, ◌/◌, ◌%◌, ◌≤◌, ◌<◌, leb, ltb, eqb, length};
ghost use Rattle.words.specs.Words.{u32_at};
ghost use Rattle.bits.specs.Bits.{bit};
ghost use Rattle.records.specs.Codes.{ev_syn, ev_key, ev_rel, ev_abs, syn_mt_report};
ghost use Rattle.entries.specs.Entry.{evbits};
ghost use Rattle.entries.specs.Offer.{absolute_bit, button_bit, is_offered};

use crate::{EVBITS, KNOWN_LENGTH};
use records::Event;
use records::codes::{EV_ABS, EV_KEY, EV_REL, EV_SYN, SYN_MT_REPORT};

// Where the masks begin, and where the mask of buttons starts and ends.
const ABSBITS: usize = 44;

const BTNBITS: usize = 56;

const FIRST_BUTTON: u16 = 0x100;

const LAST_BUTTON: u16 = 0x15F;

fn word_of(index: u16) -> usize
    ensures { result ≡ 4 * (index / 32) }
{
    4 * (index / 32) as usize
}

// The bit at an index of the mask that begins at a byte.
fn mask_bit(entry: &[u8], mask: usize, index: u16) -> bool
    requires { mask + 4 * (index / 32) + 4 ≤ length entry.now }
    ensures { result ≡ bit (u32_at entry.now (mask + 4 * (index / 32))) (index % 32) }
{
    let word = words::read_u32(entry, mask + word_of(index));
    bits::is_set(word as u64, (index % 32) as u32)
}

// Whether the entry has events of a type.
pub(crate) fn has_type(entry: &[u8], kind: u16) -> bool
    requires { 44 ≤ length entry.now }
    ensures { result ≡ bit (evbits entry.now) kind }
{
    bits::is_set(words::read_u32(entry, EVBITS) as u64, kind as u32)
}

fn offers_report(entry: &[u8; KNOWN_LENGTH], code: u16) -> bool
    ensures { result ≡ (bit (evbits entry.now) ev_syn && eqb code syn_mt_report) }
{
    has_type(entry, EV_SYN) && code == SYN_MT_REPORT
}

fn offers_button(entry: &[u8; KNOWN_LENGTH], code: u16) -> bool
    ensures { result ≡ (bit (evbits entry.now) ev_key
        && (leb 0x100 code && (leb code 0x15F && button_bit entry.now code))) }
{
    has_type(entry, EV_KEY)
        && (FIRST_BUTTON..=LAST_BUTTON).contains(&code)
        && mask_bit(entry, BTNBITS, code - FIRST_BUTTON)
}

// The mask of relative codes isn't asked.
fn offers_relative(entry: &[u8; KNOWN_LENGTH], code: u16) -> bool
    ensures { result ≡ (bit (evbits entry.now) ev_rel && ltb code 32) }
{
    has_type(entry, EV_REL) && code < 32
}

fn offers_absolute(entry: &[u8; KNOWN_LENGTH], code: u16) -> bool
    ensures { result ≡ (bit (evbits entry.now) ev_abs && (ltb code 64 && absolute_bit entry.now code)) }
{
    has_type(entry, EV_ABS) && code < 64 && mask_bit(entry, ABSBITS, code)
}

// By compares, one of which is no equation: four equations, as a match has them, would become a jump through a table. Axes of a panel come
// most often, several for each finger.
#[tactic(auto, using(crate::proofs::Laws::Offer::by_type))]
pub fn is_offered(entry: &[u8; KNOWN_LENGTH], event: Event) -> bool
    ensures { result ≡ is_offered entry.now event }
{
    let Event { kind, code, .. } = event;
    if kind > EV_REL {
        return kind == EV_ABS && offers_absolute(entry, code);
    }
    if kind == EV_REL {
        return offers_relative(entry, code);
    }
    if kind == EV_KEY {
        return offers_button(entry, code);
    }
    offers_report(entry, code)
}
