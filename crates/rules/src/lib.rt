// The rules of a well-formed motion record, once for both widths (document 02, E12): over the width of its words, with the limit of vectors as an argument.
#![tactic(auto)]

ghost use Rattle.std.specs.Prelude.{◌≡◌, ℕ, ◌*◌, ◌-◌, ◌≤◌, ◌<◌, None, Some, eqb, pos, map, length};
ghost use Rattle.std.specs.Int.Bits.{bit_and};
ghost use Rattle.definitions.specs.Basics.{minus, pick};
ghost use Rattle.definitions.specs.Blocks.{quadrant_of};
ghost use Rattle.definitions.specs.Record.{motion_of, record_words, rule2, rule4, rule5, sub_split_of, sub_type_of};
ghost use Rattle.definitions.specs.Refusals.{record_tests, verdict_of};
ghost use Rattle.definitions.specs.Splits.{same_motion};
ghost use Rattle.records.specs.Checking.{addresses, first_block_of, found_at, sub_first_block};
ghost use Rattle.rules.specs.Searching.{head_broken, pieces_right, unused_zero};

use common::refusals;
use definitions::{RECORD_WORDS, Refusal, Verdict};
use records::check::{
    Range, all_within, detail_right, quadrant_used, same_references, same_vectors,
};
use records::read::record_at;
use records::{check, layout};
use word::Word;

// ---- Rules 1 to 4: words 0 to 12
// Rule 2.
fn sub_types_right<W: Word>(words: &[W; RECORD_WORDS]) -> bool
    ensures { result ≡ rule2 (map W.value words.now) }
{
    match words[layout::TYPE].get() {
        4 => all_within(words, layout::SUB_TYPES, 4, check::sub_types()),
        _ => all_within(words, layout::SUB_TYPES, 4, check::only_zero()),
    }
}

// Rule 4.
fn usage_right<W: Word>(words: &[W; RECORD_WORDS]) -> bool
    ensures { result ≡ rule4 (map W.value words.now) }
{
    match words[layout::TYPE].get() {
        0 => all_within(words, layout::REFERENCES, 8, check::only_unused()),
        _ => {
            quadrant_used(words, 0)
                & quadrant_used(words, 1)
                & quadrant_used(words, 2)
                & quadrant_used(words, 3)
        }
    }
}

// The first of rules 1 to 4 that is broken.
fn head_rule<W: Word>(words: &[W; RECORD_WORDS]) -> Option<u32>
    ensures { result ≡ pick (eqb (head_broken (map W.value words.now)) 0) None (Some (head_broken (map W.value words.now))) }
{
    if !all_within(words, layout::TYPE, 1, check::types()) {
        return Some(1);
    }
    if !sub_types_right(words) {
        return Some(2);
    }
    if !all_within(words, layout::REFERENCES, 8, check::references()) {
        return Some(3);
    }
    if !usage_right(words) {
        return Some(4);
    }
    None
}

// ---- Rule 5
// Vector words: -limit..limit - 1. (By an argument, where `records` has the limit of a width: the rules judge by any up to that. Its bounds are asked of three functions, which hand it on: a type of limits is no plainer.)
fn vectors_within<W: Word>(limit: u32) -> Range<W>
    requires { (0 < limit) × (limit ≤ W.LIMIT) }
    ensures { (W.value result.low ≡ minus limit) × (W.value result.high ≡ pos (limit - 1)) }
{
    let above = limit as i32;
    Range {
        low: W::of(-above),
        high: W::of(above - 1),
    }
}

// Those of quadrant q in list l are 0 unless the list is used. A block has four words, and a row of blocks sixteen.
fn unused_zero<W: Word>(words: &[W; RECORD_WORDS], q: usize, l: usize) -> bool
    requires { (q < 4) × (l < 2) }
    ensures { result ≡ unused_zero (map W.value words.now) q l }
{
    let first = layout::VECTORS + 32 * (q / 2) + 8 * (q % 2) + 2 * l;
    let zero = all_within(words, first, 2, check::only_zero())
        & all_within(words, first + 4, 2, check::only_zero())
        & all_within(words, first + 16, 2, check::only_zero())
        & all_within(words, first + 20, 2, check::only_zero());
    (words[layout::REFERENCES + 2 * q + l].get() != layout::UNUSED as i32) | zero
}

// Rule 5: all are in range, and those of unused lists are 0.
fn vectors_right<W: Word>(words: &[W; RECORD_WORDS], limit: u32) -> bool
    requires { (0 < limit) × (limit ≤ W.LIMIT) }
    ensures { result ≡ rule5 limit (map W.value words.now) }
{
    let mut zero = true;
    for q in 0..4usize {
        zero = zero & (unused_zero(words, q, 0) & unused_zero(words, q, 1));
    }
    all_within(words, layout::VECTORS, 64, vectors_within(limit)) & zero
}

// ---- Rule 6: one motion in each piece
// The bits of a block's number that tell pieces apart: with these alone kept, it is the number of its piece's first block.
// Those of quadrant q by its sub-type,
fn sub_kept<W: Word>(words: &[W; RECORD_WORDS], q: usize) -> usize
    requires { q < 4 }
    ensures { (result < 16) × ((b : ℕ) → b < 16 → bit_and b result ≡ sub_first_block (sub_split_of (sub_type_of (map W.value words.now) q)) b) }
{
    match words[layout::SUB_TYPES + q].get() {
        0 => 10,
        1 => 14,
        2 => 11,
        _ => 15,
    }
}

// and by the type. An intra record has no pieces: each block stands for itself.
fn kept<W: Word>(words: &[W; RECORD_WORDS], q: usize) -> usize
    requires { q < 4 }
    ensures { (result < 16) × ((b : ℕ) → b < 16 → quadrant_of b ≡ q → bit_and b result ≡ first_block_of (map W.value words.now) b) }
{
    match words[layout::TYPE].get() {
        0 => 15,
        1 => 0,
        2 => 8,
        3 => 2,
        _ => sub_kept(words, q),
    }
}

// Blocks b and d have the same motion: the references of their quadrants, and their vectors.
fn same_motion<W: Word>(words: &[W; RECORD_WORDS], b: usize, d: usize) -> bool
    requires { (b < 16) × (d < 16) }
    ensures { result ≡ same_motion (motion_of (map W.value words.now) b) (motion_of (map W.value words.now) d) }
{
    let references = same_references(words, 2 * (b / 8) + b % 4 / 2, 2 * (d / 8) + d % 4 / 2);
    references & same_vectors(words, b, d)
}

// The blocks of quadrant q, which are i, i + 1, i + 4 and i + 5, have the motion of their pieces' first blocks.
fn quadrant_pieces<W: Word>(words: &[W; RECORD_WORDS], q: usize) -> bool
    requires { q < 4 }
    ensures { result ≡ pieces_right (map W.value words.now) q }
{
    let i = 8 * (q / 2) + 2 * (q % 2);
    let keep = kept(words, q);
    same_motion(words, i, i & keep)
        & same_motion(words, i + 1, (i + 1) & keep)
        & same_motion(words, i + 4, (i + 4) & keep)
        & same_motion(words, i + 5, (i + 5) & keep)
}

// ---- The check
// What is said of the record at address a, by the first rule that it breaks.
fn broken_at(a: usize, rule: u32) -> Verdict
    requires { (a < 65536) × (0 < rule) }
    ensures { result ≡ found_at a rule }
{
    Err(Refusal {
        number: refusals::RECORD,
        place: a as u32,
        rule,
    })
}

// Records from..to-1 are well formed, or refusal 8 at the lowest that is not, with its first broken rule. (A nested search left by a label, a form that document 01 names; what is found stands beside it.)
pub fn check<W: Word>(base: &[W], from: usize, to: usize, limit: u32) -> Verdict
    requires { (to * record_words ≤ length base.now) × (from ≤ to) × (to ≤ 65536) × (0 < limit) × (limit ≤ W.LIMIT) }
    ensures { result ≡ verdict_of (record_tests limit (map W.value base.now) (addresses from to)) }
{
    let mut found = Ok(());
    'records: for a in from..to {
        let words = record_at(base, a);
        if let Some(rule) = head_rule(words) {
            found = broken_at(a, rule);
            break 'records;
        }
        if !vectors_right(words, limit) {
            found = broken_at(a, 5);
            break 'records;
        }
        // rule 6
        for q in 0..4usize {
            if !quadrant_pieces(words, q) {
                found = broken_at(a, 6);
                break 'records;
            }
        }
        if !detail_right(words) {
            found = broken_at(a, 7);
            break 'records;
        }
    }
    found
}
