// Bytes copied into a buffer, and zeroed.
#![tactic(auto)]

ghost use Rattle.std.specs.Prelude.{◌≡◌, ◌+◌, ◌≤◌, length, replicate};
ghost use Rattle.copying.specs.Copying.{overwrite};

// Copies the source into the buffer from `at` on. Kept byte by byte: the library's `copy_from_slice` calls memmove, which a host without a
// C library would have to bring.
pub fn copy(bytes: &mut [u8], at: usize, source: &[u8])
    requires { at + length source.now ≤ length bytes.old }
    ensures { bytes.new ≡ overwrite bytes.old at source.now }
{
    for i in 0..source.len() {
        bytes[at + i] = source[i];
    }
}

// Fills a stretch of eight bytes. An array moves as one word, as a slice of this length wouldn't.
fn fill_eight(stretch: &mut [u8], source: &[u8])
    requires { (length stretch.old ≡ 8) × (length source.now ≡ 8) }
    ensures { stretch.new ≡ source.now }
{
    *stretch.as_mut_array::<8>().unwrap() = *source.as_array().unwrap();
}

// As copy, for a source of eight bytes.
pub fn copy_eight(bytes: &mut [u8], at: usize, source: &[u8])
    requires { (length source.now ≡ 8) × (at + 8 ≤ length bytes.old) }
    ensures { bytes.new ≡ overwrite bytes.old at source.now }
{
    fill_eight(&mut bytes[at..at + 8], source);
}

pub fn clear(bytes: &mut [u8])
    ensures { bytes.new ≡ replicate (length bytes.old) 0 }
{
    bytes.fill(0);
}
