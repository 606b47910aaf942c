// A quick scan of motion records, which passes those that are well formed and no other. At the first that it does not pass the search of the crate rules begins, which tells what is broken, and where.
// Tests joined by `&` and `|` have no branch between them, and the compiler takes several words at once.
#![tactic(auto)]

ghost use Rattle.std.specs.Prelude.{◌≡◌, true, false, ◌&&◌, ℕ, ◌*◌, ◌≤◌, ◌<◌, pos, map, length};
ghost use Rattle.definitions.specs.Basics.{all_below, eq_z};
ghost use Rattle.definitions.specs.Record.{is_intra, record_at, record_words, rule2, rule3, rule4, rule7, type_of, well_formed};
ghost use Rattle.definitions.specs.Refusals.{record_tests, verdict_of};
ghost use Rattle.records.specs.Checking.{addresses, list_right};
ghost use Rattle.scan.specs.Quick.{block_right, quadrant_right, sub_as_first, vectors_repeat};

use definitions::{RECORD_WORDS, Verdict};
use records::read::record_at;
use records::{check, layout};
use word::Word;

// ---- Type 0, intra (that a record keeps rule 7 is asked of the six functions of types: each is an arm of one `match`, and a type of such records would be made for it alone)
// No sub-type but 0, no reference but -1, no vector but 0.
fn quick_intra<W: Word>(words: &[W; RECORD_WORDS]) -> bool
    requires { (is_intra (map W.value words.now) ≡ true) × (rule7 (map W.value words.now) ≡ true) }
    ensures { result ≡ well_formed W.LIMIT (map W.value words.now) }
{
    check::all_within(words, layout::SUB_TYPES, 4, check::only_zero())
        & check::all_within(words, layout::REFERENCES, 8, check::only_unused())
        & check::all_within(words, layout::VECTORS, 64, check::only_zero())
}

// ---- Types 1 to 4
// Rule 5 of block b: its vectors are as the references of its quadrant allow.
fn block_vectors<W: Word>(words: &[W; RECORD_WORDS], b: usize) -> bool
    requires { b < 16 }
    ensures { result ≡ all_below 2 (list_right W.LIMIT (map W.value words.now) b) }
{
    let reference = layout::REFERENCES + 2 * (2 * (b / 8) + b % 4 / 2);
    let range0 = check::range_by(words, reference);
    let range1 = check::range_by(words, reference + 1);
    check::block_within(words, layout::VECTORS + 4 * b, range0, range1)
}

// ---- Types 1 to 3: a few blocks are tested, and the others have their motion
// Rules 2 and 3 of a type that has no sub-types.
fn undivided_head<W: Word>(words: &[W; RECORD_WORDS]) -> bool
    requires { eq_z (type_of (map W.value words.now)) (pos 4) ≡ false }
    ensures { result ≡ (rule2 (map W.value words.now) && rule3 (map W.value words.now)) }
{
    if !check::all_within(words, layout::SUB_TYPES, 4, check::only_zero()) {
        return false;
    }
    check::all_within(words, layout::REFERENCES, 8, check::references())
}

// Rules 4 and 5 of block b.
fn block_right<W: Word>(words: &[W; RECORD_WORDS], b: usize) -> bool
    requires { b < 16 }
    ensures { result ≡ block_right W.LIMIT (map W.value words.now) b }
{
    check::quadrant_used(words, 2 * (b / 8) + b % 4 / 2) & block_vectors(words, b)
}

// Of blocks first..end-1, each has the vectors of the one that is a step before it, if that is one of them.
fn vectors_repeat<W: Word>(words: &[W; RECORD_WORDS], first: usize, end: usize, step: usize) -> bool
    requires { (first ≤ 16) × (end ≤ 16) × (step ≤ 16) }
    ensures { result ≡ vectors_repeat (map W.value words.now) first end step }
{
    let mut same = true;
    for b in first + step..end {
        same = same & check::same_vectors(words, b, b - step);
    }
    same
}

// Type 1, 16×16: all blocks as block 0.
fn quick_whole<W: Word>(words: &[W; RECORD_WORDS]) -> bool
    requires { (eq_z (type_of (map W.value words.now)) (pos 1) ≡ true) × (rule7 (map W.value words.now) ≡ true) }
    ensures { result ≡ well_formed W.LIMIT (map W.value words.now) }
{
    if !undivided_head(words) {
        return false;
    }
    block_right(words, 0)
        & check::same_references(words, 1, 0)
        & check::same_references(words, 2, 0)
        & check::same_references(words, 3, 0)
        & check::same_vectors(words, 1, 0)
        & vectors_repeat(words, 0, 16, 2)
}

// Type 2, 16×8: the blocks of the upper half as block 0, those of the lower as block 8.
fn quick_rows<W: Word>(words: &[W; RECORD_WORDS]) -> bool
    requires { (eq_z (type_of (map W.value words.now)) (pos 2) ≡ true) × (rule7 (map W.value words.now) ≡ true) }
    ensures { result ≡ well_formed W.LIMIT (map W.value words.now) }
{
    if !undivided_head(words) {
        return false;
    }
    block_right(words, 0)
        & block_right(words, 8)
        & check::same_references(words, 1, 0)
        & check::same_references(words, 3, 2)
        & check::same_vectors(words, 1, 0)
        & vectors_repeat(words, 0, 8, 2)
        & check::same_vectors(words, 9, 8)
        & vectors_repeat(words, 8, 16, 2)
}

// Type 3, 8×16: the blocks of the left half as block 0, those of the right as block 2.
fn quick_columns<W: Word>(words: &[W; RECORD_WORDS]) -> bool
    requires { (eq_z (type_of (map W.value words.now)) (pos 3) ≡ true) × (rule7 (map W.value words.now) ≡ true) }
    ensures { result ≡ well_formed W.LIMIT (map W.value words.now) }
{
    if !undivided_head(words) {
        return false;
    }
    block_right(words, 0)
        & block_right(words, 2)
        & check::same_references(words, 2, 0)
        & check::same_references(words, 3, 1)
        & check::same_vectors(words, 1, 0)
        & check::same_vectors(words, 3, 2)
        & vectors_repeat(words, 0, 16, 4)
}

// ---- Type 4, 8×8
// The blocks of quadrant q, which are i, i + 1, i + 4 and i + 5, have the vectors of the first block of their sub-partition.
fn same_in_quadrant<W: Word>(words: &[W; RECORD_WORDS], q: usize) -> bool
    requires { q < 4 }
    ensures { result ≡ sub_as_first (map W.value words.now) q }
{
    let i = 8 * (q / 2) + 2 * (q % 2);
    let sub = words[layout::SUB_TYPES + q].get();
    let rows = check::same_vectors(words, i, i + 1) & check::same_vectors(words, i + 4, i + 5);
    let columns = check::same_vectors(words, i, i + 4) & check::same_vectors(words, i + 1, i + 5);
    // (numbers, no match: no branch)
    (rows | ((sub != 0) & (sub != 1))) & (columns | ((sub != 0) & (sub != 2)))
}

// Rules 5 and 6 of quadrant q.
fn quick_quadrant<W: Word>(words: &[W; RECORD_WORDS], q: usize) -> bool
    requires { q < 4 }
    ensures { result ≡ quadrant_right W.LIMIT (map W.value words.now) q }
{
    let i = 8 * (q / 2) + 2 * (q % 2);
    block_vectors(words, i)
        & block_vectors(words, i + 1)
        & block_vectors(words, i + 4)
        & block_vectors(words, i + 5)
        & same_in_quadrant(words, q)
}

// Rules 2 to 4.
fn quarters_head<W: Word>(words: &[W; RECORD_WORDS]) -> bool
    requires { eq_z (type_of (map W.value words.now)) (pos 4) ≡ true }
    ensures { result ≡ ((rule2 (map W.value words.now) && rule3 (map W.value words.now)) && rule4 (map W.value words.now)) }
{
    check::all_within(words, layout::SUB_TYPES, 4, check::sub_types())
        & check::all_within(words, layout::REFERENCES, 8, check::references())
        & (check::quadrant_used(words, 0)
            & check::quadrant_used(words, 1)
            & check::quadrant_used(words, 2)
            & check::quadrant_used(words, 3))
}

// They, and each quadrant.
fn quick_quarters<W: Word>(words: &[W; RECORD_WORDS]) -> bool
    requires { (eq_z (type_of (map W.value words.now)) (pos 4) ≡ true) × (rule7 (map W.value words.now) ≡ true) }
    ensures { result ≡ well_formed W.LIMIT (map W.value words.now) }
{
    if !quarters_head(words) {
        return false;
    }
    for q in 0..4usize {
        if !quick_quadrant(words, q) {
            return false;
        }
    }
    true
}

// ---- The scan
// Whether a record that keeps rule 7 is well formed: by its type.
fn quick_by_type<W: Word>(words: &[W; RECORD_WORDS]) -> bool
    requires { rule7 (map W.value words.now) ≡ true }
    ensures { result ≡ well_formed W.LIMIT (map W.value words.now) }
{
    match words[layout::TYPE].get() {
        0 => quick_intra(words),
        1 => quick_whole(words),
        2 => quick_rows(words),
        3 => quick_columns(words),
        4 => quick_quarters(words),
        _ => false,
    }
}

// The record is well formed.
#[tactic(auto, using(crate::proofs::Kept::detail_broken))]
fn quick<W: Word>(words: &[W; RECORD_WORDS]) -> bool
    ensures { result ≡ well_formed W.LIMIT (map W.value words.now) }
{
    check::detail_right(words) && quick_by_type(words)
}

// The first of records from..to-1 that is malformed, or to (no Option: the check goes on from there).
fn first_not_quick<W: Word>(base: &[W], from: usize, to: usize) -> usize
    requires { (to * record_words ≤ length base.now) × (from ≤ to) × (to ≤ 65536) }
    ensures { (from ≤ result) × (result ≤ to) × ((k : ℕ) → from ≤ k → k < result → well_formed W.LIMIT (record_at (map W.value base.now) k) ≡ true) × (result < to → well_formed W.LIMIT (record_at (map W.value base.now) result) ≡ false) }
{
    for a in from..to {
        if !quick(record_at(base, a)) {
            return a;
        }
    }
    to
}

// Records from..to-1 are well formed, or refusal 8 at the lowest that is not, with its first broken rule. Records that are well formed leave it to those after them (`verdict-from`):
// so the rules search the base from the first that is not, and what they find is the answer.
pub fn check<W: Word>(base: &[W], from: usize, to: usize) -> Verdict
    requires { (to * record_words ≤ length base.now) × (from ≤ to) × (to ≤ 65536) }
    ensures { result ≡ verdict_of (record_tests W.LIMIT (map W.value base.now) (addresses from to)) }
{
    let a = first_not_quick(base, from, to);
    rules::check(base, a, to, W::LIMIT)
}
