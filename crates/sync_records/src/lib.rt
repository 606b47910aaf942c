// Reading the record lines of a text: each reader stores the words in the buffer that it is lent once it has read them all, so that bad bytes leave
// every lent word. (Where, is told by `out` and `from`: a slice of `out` in their place is no plainer, for it is taken under the same bound at each call.)
#![tactic(auto)]

ghost use Rattle.std.specs.Prelude.{◌+◌, ◌<◌, ◌≤◌, length, ◌≡◌};
ghost use Rattle.std.proofs.lemmas.List.Edits.{sets};
ghost use Rattle.std.specs.Int.{w16};
ghost use Rattle.std.proofs.Common.{SFits};
ghost use Rattle.definitions.specs.Record.{all_one, record_words, laid_out};
ghost use Rattle.definitions.specs.Text.{intra, whole, mb, whole_motion, words_for, words_of};
ghost use Rattle.motion.specs.ByValue.{InWords, motion_in};
ghost use Rattle.grammar.specs.Readers.{as_read, EntryTail, Fields, FieldsAfter, StoresAt, TailOf, ends_at};

use definitions::RECORD_WORDS;
use grammar::{Got, Text};
use motion::BlockMotion;
use records::layout;
use records::layout::NO_MOTION;
use records::write::write_one;
use sync_notes::word_at;
use sync_numbers::field;

// The most numbers in one pair of brackets: the vector words of a record.
const MOST_FIELDS: usize = 64;

// The words, stored from `from` on.
pub fn put_words(out: &mut [i16], from: usize, words: &[i16])
    requires { from + length words.now ≤ length out.old }
    ensures { out.new ≡ sets out.old from words.now }
{
    let to = from + words.len();
    out[from..to].copy_from_slice(words);
}

// n + 1 numbers and the closing bracket. The numbers are stored from `from` on, once all are read.
#[inline] // as `fields_after`
fn store_fields(t: &mut Text, n: usize, out: &mut [i16], from: usize) -> Got
    requires { (n < 64) × (from + n < length out.old) }
    ensures read { StoresAt (Fields n) as_read t.old.bytes.now t.old.at out.old from out.new (ends_at t.new.at result) }
    ensures kept { t.new.bytes.now ≡ t.old.bytes.now }
{
    let mut own = [0i16; MOST_FIELDS];
    for i in 0..n {
        own[i] = field(t, false)?;
    }
    own[n] = field(t, true)?;
    let many = n + 1;
    put_words(out, from, &own[0..many]);
    Ok(())
}

// The bytes of w, then n + 1 numbers and the closing bracket.
#[inline] // each line has a count of its own: where that is known, few numbers are kept in registers (a line (whole ..) takes twice the time with a call)
pub fn fields_after(t: &mut Text, w: &[u8], n: usize, out: &mut [i16], from: usize) -> Got
    requires { (n < 64) × (from + n < length out.old) }
    ensures read { StoresAt (FieldsAfter w.now n) as_read t.old.bytes.now t.old.at out.old from out.new (ends_at t.new.at result) }
    ensures kept { t.new.bytes.now ≡ t.old.bytes.now }
{
    word_at(t, w)?;
    store_fields(t, n, out, from)
}

// A record of one motion in all blocks, with its detail.
fn put_record(out: &mut [i16], from: usize, kind: u8, m: BlockMotion, detail: i16)
    requires { (from + record_words ≤ length out.old) × InWords w16 m }
    ensures { out.new ≡ sets out.old from (laid_out (all_one kind (motion_in m) detail)) }
{
    let to = from + RECORD_WORDS;
    write_one(&mut out[from..to], kind, m, detail);
}

// (No From: seven numbers are a line's by their place in it, and no type.)
// The motion of a line's seven numbers: the references, and the vectors of list 0 and list 1. The last is the detail.
fn motion_of(seven: [i16; 7]) -> BlockMotion
    ensures is { motion_in result ≡ whole_motion seven }
    ensures fits { InWords w16 result }
{
    BlockMotion {
        r0: i32::from(seven[0]),
        r1: i32::from(seven[1]),
        x0: i32::from(seven[2]),
        y0: i32::from(seven[3]),
        x1: i32::from(seven[4]),
        y1: i32::from(seven[5]),
    }
}

// The record of a line (whole (R0 R1) (X0 Y0 X1 Y1) D) with these numbers.
fn put_whole(out: &mut [i16], from: usize, seven: [i16; 7])
    requires { from + record_words ≤ length out.old }
    ensures { out.new ≡ sets out.old from (words_for whole seven) }
{
    put_record(out, from, layout::WHOLE, motion_of(seven), seven[6]);
}

// What comes after the letter of a line (intra D). The record is stored once all of it is read.
fn intra_tail(t: &mut Text, out: &mut [i16], from: usize) -> Got
    requires { from + record_words ≤ length out.old }
    ensures read { StoresAt (TailOf intra) (words_for intra) t.old.bytes.now t.old.at out.old from out.new (ends_at t.new.at result) }
    ensures kept { t.new.bytes.now ≡ t.old.bytes.now }
{
    let mut one = [0i16; 1];
    fields_after(t, b"ntra ", 0, &mut one, 0)?;
    word_at(t, b"\n")?;
    put_record(out, from, layout::INTRA, NO_MOTION, one[0]);
    Ok(())
}

// The same of a line (whole (R0 R1) (X0 Y0 X1 Y1) D).
fn whole_tail(t: &mut Text, out: &mut [i16], from: usize) -> Got
    requires { from + record_words ≤ length out.old }
    ensures read { StoresAt (TailOf whole) (words_for whole) t.old.bytes.now t.old.at out.old from out.new (ends_at t.new.at result) }
    ensures kept { t.new.bytes.now ≡ t.old.bytes.now }
{
    let mut seven = [0i16; 7];
    fields_after(t, b"hole (", 1, &mut seven, 0)?;
    fields_after(t, b" (", 3, &mut seven, 2)?;
    fields_after(t, b" ", 0, &mut seven, 6)?;
    word_at(t, b"\n")?;
    put_whole(out, from, seven);
    Ok(())
}

// The same of a line (mb T (4 sub-types) (8 references) (64 vector words) D).
fn mb_tail(t: &mut Text, out: &mut [i16], from: usize) -> Got
    requires { from + record_words ≤ length out.old }
    ensures read { StoresAt (TailOf mb) (words_for mb) t.old.bytes.now t.old.at out.old from out.new (ends_at t.new.at result) }
    ensures kept { t.new.bytes.now ≡ t.old.bytes.now }
{
    let mut own = [0i16; RECORD_WORDS];
    word_at(t, b"b ")?;
    own[layout::TYPE] = field(t, false)?;
    fields_after(t, b"(", 3, &mut own, layout::SUB_TYPES)?;
    fields_after(t, b" (", 7, &mut own, layout::REFERENCES)?;
    fields_after(t, b" (", 63, &mut own, layout::VECTORS)?;
    fields_after(t, b" ", 0, &mut own, layout::DETAIL)?;
    word_at(t, b"\n")?;
    put_words(out, from, &own);
    Ok(())
}

// A record line after its bracket. Its words are stored from `from` on; a bad line leaves every word.
pub fn record_line(t: &mut Text, out: &mut [i16], from: usize) -> Got
    requires { from + record_words ≤ length out.old }
    ensures read { StoresAt EntryTail words_of t.old.bytes.now t.old.at out.old from out.new (ends_at t.new.at result) }
    ensures kept { t.new.bytes.now ≡ t.old.bytes.now }
{
    match t.byte()? {
        b'i' => {
            t.at += 1;
            intra_tail(t, out, from)
        }
        b'w' => {
            t.at += 1;
            whole_tail(t, out, from)
        }
        b'm' => {
            t.at += 1;
            mb_tail(t, out, from)
        }
        _ => Err(t.at),
    }
}
