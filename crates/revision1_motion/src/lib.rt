// Relative motion scaled by ACCELERATION, by its sign and its size.
#![tactic(auto)]

ghost use Rattle.std.specs.Prelude.{◌≡◌, ◌≤◌, ◌<◌, ◌^◌};
ghost use Rattle.revision1_motion.specs.Scaling.{is_negative, size_of, scaled_size, is_in_range};
ghost use Rattle.revision1_motion.specs.Scaling as spec;

fn is_negative(value: u32) -> bool
    ensures { result ≡ is_negative value }
{
    value >= 0x8000_0000
}

fn size_of(value: u32) -> u32
    ensures { (result ≡ size_of value) × (result ≤ 2 ^ 31) }
{
    value.cast_signed().unsigned_abs()
}

fn scaled_size(acceleration: u16, value: u32) -> u64
    ensures { result ≡ scaled_size acceleration value }
{
    u64::from(size_of(value)) * u64::from(acceleration) / 10
}

// Whether the scaled number has 16 bits.
#[tactic(auto, unfolding(crate::specs::Scaling::is_in_range))]
pub fn is_in_range(acceleration: u16, value: u32) -> bool
    ensures { result ≡ is_in_range acceleration value }
{
    let size = scaled_size(acceleration, value);
    if is_negative(value) {
        size <= 32768
    } else {
        size <= 32767
    }
}

#[tactic(auto, unfolding(crate::specs::Scaling::scaled))]
pub fn scaled(acceleration: u16, value: u32) -> u32
    ensures { (result ≡ spec.scaled acceleration value) × (result < 65536) }
{
    let size = (scaled_size(acceleration, value) % 65536) as u32;
    if is_negative(value) {
        (65536 - size) % 65536
    } else {
        size
    }
}
