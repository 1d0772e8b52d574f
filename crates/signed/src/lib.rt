// Two's complement of 16 and 32 bits, which the library's casts across the sign are.
#![tactic(auto)]

ghost use Rattle.std.specs.Prelude.{◌≡◌};
ghost use Rattle.std.specs.Int.{w16, w32};
ghost use Rattle.signed.specs.Signed.{from_bits, to_bits};

// A trait over both widths would have these four bodies too, and its laws beside them.
pub fn i16_from_bits(bits: u16) -> i16
    ensures { result ≡ from_bits w16 bits }
{
    u16::cast_signed(bits)
}

pub fn i16_to_bits(value: i16) -> u16
    ensures { result ≡ to_bits w16 value }
{
    i16::cast_unsigned(value)
}

pub fn i32_from_bits(bits: u32) -> i32
    ensures { result ≡ from_bits w32 bits }
{
    u32::cast_signed(bits)
}

pub fn i32_to_bits(value: i32) -> u32
    ensures { result ≡ to_bits w32 value }
{
    i32::cast_unsigned(value)
}
