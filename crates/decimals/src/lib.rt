// Unsigned decimals of 32 bits, read from text.
#![tactic(auto)]

ghost use Rattle.std.specs.Prelude.{◌≡◌};
ghost use Rattle.answers.specs.declared.Refusal.TheVariants.{BadSetting};
ghost use Rattle.answers.specs.Refusals.{first_refusal};
ghost use Rattle.decimals.specs.Numbers.{follows_zero, next_number, read_number, answer_of, text_refusals};

use answers::Refusal;

// A text that says nothing.
#[derive(Clone, Copy, Debug, PartialEq, Eq)]
pub struct BadText {
    // Of the first byte that spoils the text.
    pub place: usize,
}

impl From<BadText> for Refusal {
    ghost from_gives = { λ _ refusal. refusal ≡ BadSetting };

    fn from(_bad: BadText) -> Refusal {
        Refusal::BadSetting
    }
}

#[tactic(auto, unfolding(crate::specs::Numbers::follows_zero))]
fn follows_zero(place: usize, value: u32) -> bool
    ensures { result ≡ follows_zero place value }
{
    place != 0 && value == 0
}

// One byte more, after bytes that say `value`. Each way out is the case of `spoils` that its tests pick.
#[tactic(auto, unfolding(crate::specs::Numbers::spoils, crate::specs::Numbers::next_number))]
fn next_number(place: usize, value: u32, byte: u8) -> Result<u32, BadText>
    ensures { result ≡ next_number place value byte }
{
    if !byte.is_ascii_digit() || follows_zero(place, value) {
        return Err(BadText { place });
    }
    let next = value as u64 * 10 + (byte - b'0') as u64;
    u32::try_from(next).map_err(|_| BadText { place })
}

pub fn read_number(text: &[u8]) -> Result<u32, BadText>
    ensures { (answer_of result ≡ first_refusal (text_refusals text.now)) × (result ≡ read_number text.now) }
{
    if text.is_empty() {
        return Err(BadText { place: 0 });
    }
    let mut value = 0;
    for (place, &byte) in text.iter().enumerate() {
        value = next_number(place, value, byte)?;
    }
    Ok(value)
}
