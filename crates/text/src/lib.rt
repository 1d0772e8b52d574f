// Text put into a lent buffer: bytes, and numbers in decimal.
#![tactic(auto)]

ghost use Rattle.std.specs.Prelude.{◌≡◌, ◌+◌, ◌≤◌, length};
ghost use Rattle.text.specs.Text.{decimal};
ghost use Rattle.text.specs.Writer.{Adds};

use itoa::Buffer;

// A text that grows in a lent buffer: it is the first `end` bytes.
#[derive(Drop)]
pub struct Writer<'a> {
    pub out: &'a mut [u8],
    pub end: usize,
}

impl<'a> Writer<'a> {
    // Puts the text behind what was written.
    pub fn write_text(&mut self, text: &[u8])
        requires { self.old.end + length text.now ≤ length self.old.out.now }
        ensures { Adds self.old self.new text.now }
    {
        copying::copy(self.out, self.end, text);
        self.end += text.len();
    }

    // Puts the number in decimal behind what was written.
    #[tactic(auto, using(crate::proofs::Laws::Decimal::printed))]
    pub fn write_decimal(&mut self, value: u32)
        requires { self.old.end + 10 ≤ length self.old.out.now }
        ensures { Adds self.old self.new (decimal value) }
    {
        self.write_text(Buffer::new().format(value).as_bytes())
    }
}
