// The keyboard ring. Each end keeps its own index, and lends it to its call.
#![tactic(auto)]

ghost use Rattle.std.specs.Prelude.{◌≡◌};
ghost use Rattle.answers.specs.Refusal.{answer_of};
ghost use Rattle.kbdif.specs.Put.{put_of};
ghost use Rattle.kbdif.specs.Take.{take_of};
ghost use Rattle.kbdif_numbers.specs.Numbers.{found_of, outcome_found};
ghost use Rattle.kbdif_calls.specs.Calls.{encode_answer, encoded_bytes, decoded_of};

use answers::{Refusal, answer_of};
use kbdif_events::RingEvent;
use kbdif_numbers::{FoundNumbers, RingNumbers};
use kbdif_page::ContactLimit;

#[tactic(auto, unfolding(crate::specs::Calls::encode_answer, crate::specs::Calls::encoded_bytes, answers::specs::Refusals::first_refusal))]
fn encode(out: &mut [u8], event: RingNumbers) -> Result<(), Refusal>
    ensures { (answer_of result ≡ encode_answer out.old event) × (out.new ≡ encoded_bytes out.old event) }
{
    let Some(out) = out.as_mut_array() else {
        return Err(Refusal::Invalid);
    };
    let event = RingEvent::from(event);
    if !event.is_known() {
        return Err(Refusal::Malformed);
    }
    event.encode(out);
    Ok(())
}

#[unsafe(no_mangle)]
pub extern "C" fn thayarqo_ring_encode(out: &mut [u8], event: RingNumbers) -> u8
    ensures { (result ≡ encode_answer out.old event) × (out.new ≡ encoded_bytes out.old event) }
{
    answer_of(encode(out, event))
}

#[tactic(auto, unfolding(answers::specs::Refusals::first_refusal))]
fn decode(bytes: &[u8], contact_limit: u32) -> Result<RingNumbers, Refusal>
    ensures { outcome_found result ≡ found_of (decoded_of bytes.now contact_limit) }
{
    let Some(bytes) = bytes.as_array() else {
        return Err(Refusal::Invalid);
    };
    let limit = ContactLimit::new(contact_limit)?;
    kbdif_numbers::decode(bytes, limit)
}

#[unsafe(no_mangle)]
pub extern "C" fn thayarqo_ring_decode(bytes: &[u8], contact_limit: u32) -> FoundNumbers
    ensures { result ≡ found_of (decoded_of bytes.now contact_limit) }
{
    decode(bytes, contact_limit).into()
}

#[unsafe(no_mangle)]
pub extern "C" fn thayarqo_ring_put(
    page: &mut [u8],
    in_prod: &mut u32,
    contact_limit: u32,
    event: &[u8],
) -> u8
    ensures { let stored = put_of page.old in_prod.old contact_limit event.now in
        (result ≡ stored.result.answer) × (in_prod.new ≡ stored.result.in_prod) × (page.new ≡ stored.page) }
{
    answer_of(kbdif::put(page, in_prod, contact_limit, event))
}

#[unsafe(no_mangle)]
pub extern "C" fn thayarqo_ring_take(
    page: &mut [u8],
    in_cons: &mut u32,
    contact_limit: u32,
) -> FoundNumbers
    ensures { let taken = take_of page.old in_cons.old contact_limit in
        (result ≡ found_of taken.found) × (in_cons.new ≡ taken.in_cons) × (page.new ≡ taken.page) }
{
    kbdif::take(page, in_cons, contact_limit).into()
}
