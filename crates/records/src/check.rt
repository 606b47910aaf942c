// The tests of words by which the quick scan of records (the crate scan) and the rules (the crate rules) go.
ghost use Rattle.std.specs.Prelude.{◌≡◌, ◌+◌, ◌-◌, ◌≤◌, ◌<◌, ℤ, pos, map};
ghost use Rattle.definitions.specs.Basics.{between, eq_z, minus};
ghost use Rattle.definitions.specs.Record.{record_words, rule7, used, vector_word, word_of};
ghost use Rattle.records.specs.Checking.{all_within, block_within, quadrant_used, same_references, same_vectors};

use crate::layout;
use crate::layout::UNUSED;
use definitions::RECORD_WORDS;
use word::Word;

// low..high, both included
#[derive(Clone, Copy)]
pub struct Range<W> {
    pub low: W,
    pub high: W,
}

fn range_of<W: Word>(low: i16, high: i16) -> Range<W>
    ensures { (W.value result.low ≡ low) × (W.value result.high ≡ high) }
{
    Range {
        low: W::of(low as i32),
        high: W::of(high as i32),
    }
}

// Rule 1.
pub fn types<W: Word>() -> Range<W>
    ensures { (W.value result.low ≡ pos 0) × (W.value result.high ≡ pos 4) }
{
    range_of(0, 4)
}

pub fn sub_types<W: Word>() -> Range<W>
    ensures { (W.value result.low ≡ pos 0) × (W.value result.high ≡ pos 3) }
{
    range_of(0, 3)
}

pub fn references<W: Word>() -> Range<W>
    ensures { (W.value result.low ≡ minus 1) × (W.value result.high ≡ pos 31) }
{
    range_of(UNUSED, 31)
}

fn vectors<W: Word>() -> Range<W>
    ensures { (W.value result.low ≡ minus W.LIMIT) × (W.value result.high ≡ pos (W.LIMIT - 1)) }
{
    let above = W::LIMIT as i32;
    Range {
        low: W::of(-above),
        high: W::of(above - 1),
    }
}

// Rule 7.
fn details<W: Word>() -> Range<W>
    ensures { (W.value result.low ≡ pos 0) × (W.value result.high ≡ pos 15) }
{
    range_of(0, 15)
}

pub fn only_unused<W: Word>() -> Range<W>
    ensures { (W.value result.low ≡ minus 1) × (W.value result.high ≡ minus 1) }
{
    range_of(UNUSED, UNUSED)
}

pub fn only_zero<W: Word>() -> Range<W>
    ensures { (W.value result.low ≡ pos 0) × (W.value result.high ≡ pos 0) }
{
    range_of(0, 0)
}

// ---- Words in a range (w < 78, and q < 4 and b < 16 below, are asked: a type of such indices would be turned into its number at each use)
// Both tests are made: `&` has no branch. So it is wherever words are tested by `&` below, and the compiler takes several at once.
fn word_within<W: Word>(words: &[W; RECORD_WORDS], w: usize, range: Range<W>) -> bool
    requires { w < record_words }
    ensures { result ≡ between (W.value range.low) (W.value range.high) (word_of (map W.value words.now) w) }
{
    let word = words[w];
    range.low.at_most(word) & word.at_most(range.high)
}

// Count words from the first on are in the range.
pub fn all_within<W: Word>(
    words: &[W; RECORD_WORDS],
    first: usize,
    count: usize,
    range: Range<W>,
) -> bool
    requires { first + count ≤ record_words }
    ensures { result ≡ all_within (map W.value words.now) first count (W.value range.low) (W.value range.high) }
{
    let mut right = true;
    for k in 0..count {
        right = right & word_within(words, first + k, range);
    }
    right
}

// ---- Rule 4
// Quadrant q has a used list.
pub fn quadrant_used<W: Word>(words: &[W; RECORD_WORDS], q: usize) -> bool
    requires { q < 4 }
    ensures { result ≡ quadrant_used (map W.value words.now) q }
{
    let first = layout::REFERENCES + 2 * q;
    if words[first].get() != UNUSED as i32 {
        return true;
    }
    words[first + 1].get() != UNUSED as i32
}

// ---- Rule 5
// The range that the reference at word w allows its vector words.
pub fn range_by<W: Word>(words: &[W; RECORD_WORDS], w: usize) -> Range<W>
    requires { w < record_words }
    ensures { (v : ℤ) → between (W.value result.low) (W.value result.high) v ≡ vector_word W.LIMIT (used (word_of (map W.value words.now) w)) v }
{
    if words[w].get() == UNUSED as i32 {
        return only_zero();
    }
    vectors()
}

// A block's four vector words, from the first on: those of list 0 are in range0, those of list 1 in range1.
pub fn block_within<W: Word>(
    words: &[W; RECORD_WORDS],
    first: usize,
    range0: Range<W>,
    range1: Range<W>,
) -> bool
    requires { first + 4 ≤ record_words }
    ensures { result ≡ block_within (between (W.value range0.low) (W.value range0.high)) (between (W.value range1.low) (W.value range1.high)) (map W.value words.now) first }
{
    word_within(words, first, range0)
        & word_within(words, first + 1, range0)
        & word_within(words, first + 2, range1)
        & word_within(words, first + 3, range1)
}

// ---- Rule 6 (the words of a record side by side are no structs, of which `==` could be derived)
// Words v and w are the same.
fn same_word<W: Word>(words: &[W; RECORD_WORDS], v: usize, w: usize) -> bool
    requires { (v < record_words) × (w < record_words) }
    ensures { result ≡ eq_z (word_of (map W.value words.now) v) (word_of (map W.value words.now) w) }
{
    words[v].get() == words[w].get()
}

// Quadrants q and e have the same references.
pub fn same_references<W: Word>(words: &[W; RECORD_WORDS], q: usize, e: usize) -> bool
    requires { (q < 4) × (e < 4) }
    ensures { result ≡ same_references (map W.value words.now) q e }
{
    let v = layout::REFERENCES + 2 * q;
    let w = layout::REFERENCES + 2 * e;
    same_word(words, v, w) & same_word(words, v + 1, w + 1)
}

// Blocks b and d have the same vectors.
pub fn same_vectors<W: Word>(words: &[W; RECORD_WORDS], b: usize, d: usize) -> bool
    requires { (b < 16) × (d < 16) }
    ensures { result ≡ same_vectors (map W.value words.now) b d }
{
    let v = layout::VECTORS + 4 * b;
    let w = layout::VECTORS + 4 * d;
    same_word(words, v, w)
        & same_word(words, v + 1, w + 1)
        & same_word(words, v + 2, w + 2)
        & same_word(words, v + 3, w + 3)
}

// ---- Rule 7
pub fn detail_right<W: Word>(words: &[W; RECORD_WORDS]) -> bool
    ensures { result ≡ rule7 (map W.value words.now) }
{
    word_within(words, layout::DETAIL, details())
}
