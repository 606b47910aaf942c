// A word of a motion record: signed, of 16 bits, or of 32 (document 02, E12). What reads and writes records is written once, over the width.
#![tactic(auto)]

ghost use Rattle.std.proofs.Common.{SFits, arith, rules};
ghost use Rattle.std.specs.Prelude.{◌+◌, ◌*◌, ◌/◌, ◌^◌, ◌≡◌, ◌<◌, ◌≤◌, ℕ, ℤ, true, pos, get_or, slice_set, map, length};
ghost use Rattle.std.specs.Int.{Width, w16, w32};
ghost use Rattle.std.specs.Int.Signed.{le_z};
ghost use Rattle.definitions.specs.Basics.{minus};
ghost use Rattle.definitions.specs.Inheriting.{scaled_by};
ghost use Rattle.definitions.specs.Record.{fits, narrow, wide};
ghost use Rattle.motion.specs.Scales.{AcceptedScale, scale_in, scale_most, scaled_with};

use definitions::{NARROW, WIDE};
use motion::Scale;

pub trait Word: Copy {
    // The number that a word is.
    ghost value: { Self → ℤ };

    // Its bits.
    ghost BITS: { Width };

    // Vector words are -LIMIT..LIMIT - 1.
    ghost LIMIT: { ℕ };

    const LIMIT: u32;

    // The number of a word.
    fn get(self) -> i32
        ensures is { result ≡ value self }
        ensures fits { SFits BITS result };

    // The word of a number that fits its bits.
    fn of(v: i32) -> Self
        requires { SFits BITS v }
        ensures { value result ≡ v };

    // The order of words is that of their numbers.
    fn at_most(self, other: Self) -> bool
        ensures { result ≡ le_z (value self) (value other) };

    // Step 4 of "Inheriting": (v · scale + 32,768) / 65,536, rounded down.
    fn scaled(s: Scale, v: i32) -> Self
        requires { AcceptedScale s × (fits LIMIT v ≡ true) }
        ensures { value result ≡ scaled_with s v };

    // Words of one number are one word.
    ghost one: { (x y : Self) → value x ≡ value y → x ≡ y };

    // What fits sixteen bits fits a word.
    ghost holds: { (v : ℤ) → SFits w16 v → SFits BITS v };

    // So does the lowest vector word.
    ghost room: { SFits BITS (minus LIMIT) };

    ghost large: { narrow ≤ LIMIT };

    ghost small: { LIMIT ≤ wide };
}

impl Word for i16 {
    ghost value = { λ x. x };

    ghost BITS = { w16 };

    ghost LIMIT = { narrow };

    const LIMIT: u32 = NARROW;

    ghost one = { λ x y e. e };

    ghost holds = { λ v f. f };

    ghost room = { Prim.search rules };

    ghost large = { Prim.search rules };

    ghost small = { Prim.search rules };

    fn get(self) -> i32 {
        self as i32
    }

    fn of(v: i32) -> i16 {
        v as i16
    }

    fn at_most(self, other: i16) -> bool {
        self <= other
    }

    fn scaled(s: Scale, v: i32) -> i16 {
        scaled_narrow(s, v)
    }
}

impl Word for i32 {
    ghost value = { λ x. x };

    ghost BITS = { w32 };

    ghost LIMIT = { wide };

    const LIMIT: u32 = WIDE;

    ghost one = { λ x y e. e };

    ghost holds = { λ v f. record { sfits = omega (arith, f.sfits) } };

    ghost room = { Prim.search rules };

    ghost large = { Prim.search rules };

    ghost small = { Prim.search rules };

    fn get(self) -> i32 {
        self
    }

    fn of(v: i32) -> i32 {
        v
    }

    fn at_most(self, other: i32) -> bool {
        self <= other
    }

    fn scaled(s: Scale, v: i32) -> i32 {
        scaled_wide(number_of(s), v)
    }
}

// ---- Step 4, by width
// With the scale in its two parts (`fitting` of proofs/Rounded), so that several words are multiplied at once. The shift rounds down, below zero too.
fn scaled_narrow(s: Scale, v: i32) -> i16
    requires { AcceptedScale s × (fits narrow v ≡ true) }
    ensures { result ≡ scaled_with s v }
{
    let word = v as i16;
    s.whole * word + ((word as i32 * s.part as i32 + 32768) >> 16) as i16
}

// The number of a scale, of which it is two parts.
fn number_of(s: Scale) -> u32
    requires { AcceptedScale s }
    ensures { (s ≡ scale_in result) × (result ≤ scale_most) }
{
    (s.whole as i32 * 65536 + s.part as i32) as u32
}

// The limit of wide vectors, with its sign.
const LIMIT: i32 = WIDE as i32;

// A product over 65,536, rounded to the nearest, a half up.
fn round_product(up: u32, n: u32) -> u32
    requires { up * n ≤ 2 ^ 35 }
    ensures { result ≡ (up * n + 32768) / 65536 }
{
    ((up as u64 * n as u64 + 32768) / 65536) as u32
}

// With the limit more a word is not below 0, so that the product is unsigned, and what that adds, twice the scale, is taken away again (`by-raised` of proofs/Rounded).
fn scaled_wide(n: u32, v: i32) -> i32
    requires { (n ≤ scale_most) × (fits wide v ≡ true) }
    ensures { result ≡ scaled_by n v }
{
    let up = (v + LIMIT) as u32;
    round_product(up, n) as i32 - (2 * n) as i32
}

// ---- Words of a slice, by their numbers
pub fn word_at<W: Word>(words: &[W], at: usize) -> i32
    requires { at < length words.now }
    ensures is { result ≡ get_or (map W.value words.now) at (pos 0) }
    ensures fits { SFits W.BITS result }
{
    words[at].get()
}

pub fn put<W: Word>(out: &mut [W], at: usize, v: i32)
    requires { (at < length out.old) × SFits W.BITS v }
    ensures { map W.value out.new ≡ slice_set (map W.value out.old) at v }
{
    out[at] = W::of(v);
}
