// Reading motion records. (That a record lies in the base is asked of its address, which no value carries.)
ghost use Rattle.std.specs.Prelude.{◌≡◌, ◌+◌, ◌*◌, ◌≤◌, ◌<◌, true, nat_abs, pos, map, length};
ghost use Rattle.definitions.specs.Basics.{eq_z};
ghost use Rattle.definitions.specs.Record.{detail_of, is_intra, record_at, record_words, rule7, sub_type_of, type_of};

use crate::layout::{DETAIL, SUB_TYPES, TYPE};
use definitions::RECORD_WORDS;
use word::Word;

// The words of the record at address a. The slice has just their number, so that no test is left of the machine's.
pub fn record_at<W: Word>(base: &[W], a: usize) -> &[W; RECORD_WORDS]
    requires { ((a + 1) * record_words ≤ length base.now) × (a < 65536) }
    ensures { map W.value result.now ≡ record_at (map W.value base.now) a }
{
    let from = RECORD_WORDS * a;
    base[from..from + RECORD_WORDS]
        .first_chunk::<RECORD_WORDS>()
        .unwrap()
}

// (Types and sub-types are compared as numbers: a record's word may be any.)
// Of type 0, intra.
pub fn is_intra<W: Word>(base: &[W], a: usize) -> bool
    requires { ((a + 1) * record_words ≤ length base.now) × (a < 65536) }
    ensures { result ≡ is_intra (record_at (map W.value base.now) a) }
{
    record_at(base, a)[TYPE].get() == 0
}

// Of type 1, 16×16. (Beside the one before: two of the paper's types, each with its own definition.)
pub fn is_whole<W: Word>(base: &[W], a: usize) -> bool
    requires { ((a + 1) * record_words ≤ length base.now) × (a < 65536) }
    ensures { result ≡ eq_z (type_of (record_at (map W.value base.now) a)) (pos 1) }
{
    record_at(base, a)[TYPE].get() == 1
}

// Quadrant q is not divided: its sub-type is 0.
pub fn is_single<W: Word>(base: &[W], a: usize, q: usize) -> bool
    requires { ((a + 1) * record_words ≤ length base.now) × (a < 65536) × (q < 4) }
    ensures { result ≡ eq_z (sub_type_of (record_at (map W.value base.now) a) q) (pos 0) }
{
    record_at(base, a)[SUB_TYPES + q].get() == 0
}

// The detail of a record that keeps rule 7.
pub fn detail_at<W: Word>(base: &[W], a: usize) -> u8
    requires { ((a + 1) * record_words ≤ length base.now) × (a < 65536) × (rule7 (record_at (map W.value base.now) a) ≡ true) }
    ensures { (result ≡ nat_abs (detail_of (record_at (map W.value base.now) a))) × (result < 16) }
{
    record_at(base, a)[DETAIL].get() as u8
}
