// Text in ASCII, laid behind other text in a lent buffer: decimal numbers, words and lines. Where a text has no room
// nothing of it is laid.
#![tactic(auto)]

ghost use Rattle.std.specs.Prelude.{◌≡◌, take};
ghost use Rattle.text.specs.Digits.{digits, signed};
ghost use Rattle.text.specs.Laid.{word, Appends};

use itoa::Buffer;

// A lent buffer, and where the next text goes.
#[derive(Drop)]
pub struct Text<'a> {
    pub lines: &'a mut [u8],
    pub at: usize,
}

impl Text<'_> {
    // A buffer that nothing is laid in yet.
    pub fn new(lines: &mut [u8]) -> Text<'_>
        ensures same_reference { result.lines.ghost_name ≡ lines.entry.ghost_name }
        ensures lines { result.lines.now ≡ lines.old }
        ensures at { result.at ≡ 0 }
    {
        Text { lines, at: 0 }
    }

    // The text so far.
    pub fn so_far(&self) -> &[u8]
        ensures { result.now ≡ take self.now.at self.now.lines.now }
    {
        &self.lines[..self.at.min(self.lines.len())]
    }

    // Appends a text.
    pub fn append(&mut self, text: &[u8])
        ensures { Appends text.now self.old self.new }
    {
        let n = text.len();
        if fields::within(self.at, n, self.lines.len()) {
            fields::copy(self.lines, self.at, n, text, 0);
            self.at += n;
        }
    }

    // Appends a number in decimal. It and signed are no one generic function: each promises a definition of its own.
    #[tactic(auto, using(crate::proofs::DigitLaws::decimal_is_digits))]
    pub fn number(&mut self, n: u64)
        ensures { Appends (digits n) self.old self.new }
    {
        self.append(Buffer::new().format(n).as_bytes());
    }

    // Appends a number in decimal, with a minus sign before a negative one.
    #[tactic(auto, using(crate::proofs::DigitLaws::signed_decimal_is_signed))]
    pub fn signed(&mut self, z: i64)
        ensures { Appends (signed z) self.old self.new }
    {
        self.append(Buffer::new().format(z).as_bytes());
    }

    // Appends a number and the byte behind it.
    pub fn word(&mut self, n: u64, end: u8)
        ensures { Appends (word n end) self.old self.new }
    {
        let mut buffer = Buffer::new();
        let digits = buffer.format(n).as_bytes();
        if fields::within(self.at, digits.len() + 1, self.lines.len()) {
            self.append(digits);
            self.append(&[end]);
        }
    }
}
