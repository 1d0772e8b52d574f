// Masks of bits.
#![tactic(auto)]

ghost use Rattle.std.specs.Prelude.{◌≡◌, true, false, ◌^◌, ◌<◌, ◌≤◌};
ghost use Rattle.bits.specs.Bits.{bit, bit_of, with_bit, without_bit, assign_bit, IsLength};

// Any index gets an answer: past the mask's width no bit is set.
#[tactic(auto, unfolding(crate::specs::Bits::bit))]
pub fn is_set(mask: u64, index: u32) -> bool
    ensures { result ≡ bit mask index }
{
    index < 64 && (mask >> index) % 2 == 1
}

pub fn bit_of(set: bool) -> u32
    ensures { (result ≡ bit_of set) × (result ≤ 1) }
{
    u32::from(set)
}

// Kept: each caller knows `index < 64` from a slot that is in range. A type for a bit's index would be made of it at every call.
fn power(index: u32) -> u64
    requires { index < 64 }
    ensures { result ≡ 2 ^ index }
{
    1 << index
}

pub fn set(mask: u64, index: u32) -> u64
    requires { (index < 64) × (bit mask index ≡ false) }
    ensures { result ≡ with_bit mask index }
{
    mask + power(index)
}

pub fn clear(mask: u64, index: u32) -> u64
    requires { (index < 64) × (bit mask index ≡ true) }
    ensures { result ≡ without_bit mask index }
{
    mask - power(index)
}

#[tactic(auto, unfolding(crate::specs::Bits::assign_bit))]
pub fn assign(mask: u64, index: u32, given: bool) -> u64
    requires { index < 64 }
    ensures { result ≡ assign_bit mask index given }
{
    match (is_set(mask, index), given) {
        (false, true) => set(mask, index),
        (true, false) => clear(mask, index),
        _ => mask,
    }
}

// How many bits a mask has up to its highest one that is set.
pub fn length(mask: u64) -> u32
    ensures { IsLength mask result }
{
    64 - mask.leading_zeros()
}
