// Decimal numbers and other text, written into a lent buffer.
#![tactic(auto)]

ghost use Rattle.std.specs.Prelude.{◌≡◌, length};
ghost use Rattle.decimal.specs.Digits.{digits_of};
ghost use Rattle.decimal.specs.Written.{HasRoom, Wrote};

use itoa::Buffer;

// A lent buffer, and where the text in it ends.
#[derive(Drop)]
pub struct Output<'a> {
    bytes: &'a mut [u8],
    end: usize,
}

impl<'a> Output<'a> {
    // Writes from `at` on.
    pub fn at(bytes: &'a mut [u8], at: usize) -> Output<'a>
        ensures same_reference { result.bytes.ghost_name ≡ bytes.entry.ghost_name }
        ensures bytes { result.bytes.now ≡ bytes.old }
        ensures end { result.end ≡ at }
    {
        Output { bytes, end: at }
    }

    pub fn end(&self) -> usize
        ensures { result ≡ self.now.end }
    {
        self.end
    }

    pub fn text(&mut self, text: &[u8])
        requires { HasRoom self.old (length text.now) }
        ensures { Wrote (length text.now) self.old self.new text.now }
    {
        let end = self.end + text.len();
        self.bytes[self.end..end].copy_from_slice(text);
        self.end = end;
    }

    pub fn number(&mut self, n: u64)
        requires { HasRoom self.old 20 }
        ensures { Wrote 20 self.old self.new (digits_of n) }
    {
        let mut digits = Buffer::new();
        self.text(digits.format(n).as_bytes());
    }
}
