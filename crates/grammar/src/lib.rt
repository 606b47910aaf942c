// A text that is read from a place on, what a byte is, and what the text's readers hand back: what was read, or, as an Err, the first byte at which they
// cannot go on.
#![tactic(auto)]

ghost use Rattle.std.specs.Prelude.{◌≤◌, length};
ghost use Rattle.grammar.specs.Readers.{ByteAt};

use definitions::Numbers;

// What a byte is, to the readers.
#[derive(Clone, Copy)]
pub enum ByteClass {
    Alpha,
    Zero,
    Nonzero,
    Dash,
    Open,
    Close,
    Space,
    Other,
}

// What has no value to hand back.
pub type Got = Result<(), usize>;

// A number.
pub type Num = Result<i16, usize>;

// How many record lines there are, up to the end of the text.
pub type Lines = Result<usize, usize>;

// The whole text: the geometry's numbers, and how many record lines there are.
pub type TextParse = Result<(Numbers, usize), usize>;

// A text, and the place up to which it is read. (Each reader says that the bytes are `kept`, since what is lent by `&mut` may be handed others: the machine's rule, no fact of a type.)
#[derive(Drop)]
pub struct Text<'a> {
    pub bytes: &'a [u8],
    pub at: usize,
    ghost within: { at ≤ length bytes.now },
}

impl<'a> Text<'a> {
    // The byte to read next.
    pub fn byte(&self) -> Result<u8, usize>
        ensures { ByteAt self.now.bytes.now self.now.at result }
    {
        if self.at >= self.bytes.len() {
            return Err(self.at);
        }
        Ok(self.bytes[self.at])
    }
}
