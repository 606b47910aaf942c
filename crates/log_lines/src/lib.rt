// The lines of a log, written into lent bytes.
#![tactic(auto)]

ghost use Rattle.definitions.specs.Log.{decimal, line_of};
ghost use Rattle.log_lines.specs.Put.{Fits, Put, items_of};
ghost use Rattle.std.specs.Prelude.{[], ◌∷◌, ◌≡◌, ◌+◌, ◌<◌, ◌≤◌, length};

// A log, written up to a place in the bytes that are lent for it. (Each method says that they are the `same` bytes, since what is lent by `&mut` may be handed others.)
#[derive(Drop)]
pub struct Log<'a> {
    pub out: &'a mut [u8],
    pub at: usize,
    ghost within: { at ≤ length out.now },
}

impl<'a> Log<'a> {
    // A log with no byte yet.
    pub fn new(out: &'a mut [u8]) -> Log<'a>
        ensures none { (result.out.now ≡ out.old) × (result.at ≡ 0) }
        ensures same { result.out.ghost_name ≡ out.entry.ghost_name }
    {
        Log { out, at: 0 }
    }

    // How many bytes it has.
    pub fn written(&self) -> usize
        ensures { result ≡ self.now.at }
    {
        self.at
    }

    // One byte.
    fn byte(&mut self, b: u8)
        requires { Fits self.old.out.now self.old.at (b ∷ []) }
        ensures bytes { Put self.old.out.now self.old.at (b ∷ []) self.new.out.now self.new.at }
        ensures same { self.new.out.ghost_name ≡ self.old.out.ghost_name }
    {
        self.out[self.at] = b;
        self.at += 1;
    }

    // A number in decimal. (By hand, no Display: no clause of it says which bytes it writes.)
    fn number(&mut self, n: u32)
        requires { Fits self.old.out.now self.old.at (decimal n) }
        ensures bytes { Put self.old.out.now self.old.at (decimal n) self.new.out.now self.new.at }
        ensures same { self.new.out.ghost_name ≡ self.old.out.ghost_name }
    {
        if n < 10 {
            self.byte(digit(n));
            return;
        }
        self.number(n / 10);
        self.byte(digit(n % 10));
    }

    // The bytes of a word.
    fn word(&mut self, word: &[u8])
        requires { Fits self.old.out.now self.old.at word.now }
        ensures bytes { Put self.old.out.now self.old.at word.now self.new.out.now self.new.at }
        ensures same { self.new.out.ghost_name ≡ self.old.out.ghost_name }
    {
        for &b in word {
            self.byte(b);
        }
    }

    // A space and a number, for each.
    fn items(&mut self, numbers: &[u32])
        requires { Fits self.old.out.now self.old.at (items_of numbers.now) }
        ensures bytes { Put self.old.out.now self.old.at (items_of numbers.now) self.new.out.now self.new.at }
        ensures same { self.new.out.ghost_name ≡ self.old.out.ghost_name }
    {
        for &n in numbers {
            self.byte(b' ');
            self.number(n);
        }
    }

    // A line: a word and numbers.
    pub fn line(&mut self, word: &[u8], numbers: &[u32])
        requires { Fits self.old.out.now self.old.at (line_of word.now numbers.now) }
        ensures bytes { Put self.old.out.now self.old.at (line_of word.now numbers.now) self.new.out.now self.new.at }
        ensures same { self.new.out.ghost_name ≡ self.old.out.ghost_name }
    {
        self.byte(b'(');
        self.word(word);
        self.items(numbers);
        self.byte(b')');
        self.byte(b'\n');
    }
}

// A digit's byte.
fn digit(d: u32) -> u8
    requires { d < 10 }
    ensures { result ≡ 48 + d }
{
    b'0' + d as u8
}
