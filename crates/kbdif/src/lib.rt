// The Xen keyboard ring: put for the back end, take for the front end.
#![tactic(auto)]

ghost use Rattle.std.specs.Prelude.{◌≡◌, length, IfOk};
ghost use Rattle.answers.specs.Refusal.{answer_of};
ghost use Rattle.answers.specs.Refusals.{first_refusal};
ghost use Rattle.kbdif_events.specs.Event.{event_length};
ghost use Rattle.kbdif_numbers.specs.Numbers.{found_of, outcome_found};
ghost use Rattle.kbdif.specs.Put.{put_refusals, put_of};
ghost use Rattle.kbdif.specs.Take.{waiting_refusals, take_number, take_of};

use answers::Refusal;
use kbdif_events::{EVENT_LENGTH, EventBytes};
use kbdif_numbers::RingNumbers;
use kbdif_page::{ContactLimit, IN_CONS, IN_PROD, PAGE_LENGTH, RING_LENGTH};

// Gives the event where it may be put. Kept: the page, an index and a contact limit go side by side, since C lends each by itself
// (`thayarqo_ring_put`, `thayarqo_ring_take`).
#[tactic(auto, unfolding(answers::specs::Refusals::first_refusal))]
fn put_refusal<'a>(
    page: &[u8],
    in_prod: u32,
    contact_limit: u32,
    event: &'a [u8],
) -> Result<&'a EventBytes, Refusal>
    ensures answer { answer_of result ≡ first_refusal (put_refusals page.now in_prod contact_limit event.now) }
    ensures same { IfOk result (λ bytes. bytes.now ≡ event.now) }
{
    if page.len() != PAGE_LENGTH {
        return Err(Refusal::Invalid);
    }
    let Some(event) = event.as_array() else {
        return Err(Refusal::Invalid);
    };
    let limit = ContactLimit::new(contact_limit)?;
    if !kbdif_decode::may_be_put(event, limit) {
        return Err(Refusal::Malformed);
    }
    // The front end may move its index at any time, so a call reads it once.
    let used = kbdif_page::distance(in_prod, words::read_u32(page, IN_CONS));
    // Where there is room, one compare tells it.
    if used < RING_LENGTH {
        Ok(event)
    } else if used == RING_LENGTH {
        Err(Refusal::NoRoom)
    } else {
        Err(Refusal::BadIndex)
    }
}

// Fills an event's place.
fn store(place: &mut [u8], event: &EventBytes)
    requires { length place.old ≡ event_length }
    ensures { place.new ≡ event.now }
{
    *place.as_mut_array().unwrap() = *event;
}

// The back end's call. Its own index is the private one, never that of the page.
pub fn put(
    page: &mut [u8],
    in_prod: &mut u32,
    contact_limit: u32,
    event: &[u8],
) -> Result<(), Refusal>
    ensures { let stored = put_of page.old in_prod.old contact_limit event.now in
        (answer_of result ≡ stored.result.answer) × (in_prod.new ≡ stored.result.in_prod) × (page.new ≡ stored.page) }
{
    let event = put_refusal(page, *in_prod, contact_limit, event)?;
    let at = kbdif_page::event_place(*in_prod);
    store(&mut page[at..at + EVENT_LENGTH], event);
    *in_prod = kbdif_page::next_index(*in_prod);
    words::write_u32(page, IN_PROD, *in_prod);
    Ok(())
}

// Gives the limit that a waiting event is taken under.
#[tactic(auto, unfolding(answers::specs::Refusals::first_refusal))]
fn take_refusal(page: &[u8], in_cons: u32, contact_limit: u32) -> Result<ContactLimit, Refusal>
    ensures answer { answer_of result ≡ first_refusal (waiting_refusals page.now in_cons contact_limit) }
    ensures same { IfOk result (λ limit. limit.contacts ≡ contact_limit) }
{
    if page.len() != PAGE_LENGTH {
        return Err(Refusal::Invalid);
    }
    let limit = ContactLimit::new(contact_limit)?;
    // The back end may move its index at any time, so a call reads it once.
    let unread = kbdif_page::distance(words::read_u32(page, IN_PROD), in_cons);
    // How far the newest event is from the oldest. Where there is none it wraps, so that one compare tells that an event waits.
    if kbdif_page::distance(unread, 1) < RING_LENGTH {
        Ok(limit)
    } else if unread == 0 {
        Err(Refusal::NothingToRead)
    } else {
        Err(Refusal::BadIndex)
    }
}

// The front end's call. Its own index is the private one, never that of the page. The event is read before the index is written: from
// then on the back end may fill its place.
pub fn take(page: &mut [u8], in_cons: &mut u32, contact_limit: u32) -> Result<RingNumbers, Refusal>
    ensures { let taken = take_of page.old in_cons.old contact_limit in
        (answer_of result ≡ take_number page.old in_cons.old contact_limit) × (outcome_found result ≡ found_of taken.found)
        × (in_cons.new ≡ taken.in_cons) × (page.new ≡ taken.page) }
{
    let limit = take_refusal(page, *in_cons, contact_limit)?;
    let event = kbdif_page::event_at(page, *in_cons);
    let outcome = kbdif_numbers::decode(event, limit);
    *in_cons = kbdif_page::next_index(*in_cons);
    words::write_u32(page, IN_CONS, *in_cons);
    outcome
}
