// Reading a text whole: its head lines, and its notes and record lines up to the end. Lent words are written only once all of the text is read.
#![tactic(auto)]

ghost use Rattle.std.specs.Prelude.{◌+◌, ◌*◌, ◌≤◌, ◌<◌, length, ◌≡◌};
ghost use Rattle.definitions.specs.Record.{record_words};
ghost use Rattle.definitions.specs.Text.{head_numbers, text_records};
ghost use Rattle.grammar.specs.Readers.{as_read, HeadLine, HeadTail, LinesAt, NoNote, ParsedAs, StoresAt, ends_at};

use definitions::{AxisNumbers, Numbers, RECORD_WORDS};
use grammar::{Got, Lines, Text, TextParse};
use sync_notes::{note, word_at};
use sync_records::{fields_after, put_words, record_line};

// The records whose words are lent, and these words.
pub const RECORDS: usize = 99;

pub const TEXT_WORDS: usize = RECORD_WORDS * RECORDS;

// The bytes of w, two numbers and the end of the line. The numbers are stored from `from` on, once all of it is read.
fn head_tail(t: &mut Text, w: &[u8], out: &mut [i16], from: usize) -> Got
    requires { from + 2 ≤ length out.old }
    ensures read { StoresAt (HeadTail w.now) as_read t.old.bytes.now t.old.at out.old from out.new (ends_at t.new.at result) }
    ensures kept { t.new.bytes.now ≡ t.old.bytes.now }
{
    let mut two = [0i16; 2];
    fields_after(t, w, 1, &mut two, 0)?;
    word_at(t, b"\n")?;
    put_words(out, from, &two);
    Ok(())
}

// Notes, and a line that goes on with w after its bracket.
fn head_line(t: &mut Text, w: &[u8], out: &mut [i16], from: usize) -> Got
    requires { NoNote w.now × (from + 2 ≤ length out.old) }
    ensures read { StoresAt (HeadLine w.now) as_read t.old.bytes.now t.old.at out.old from out.new (ends_at t.new.at result) }
    ensures kept { t.new.bytes.now ≡ t.old.bytes.now }
{
    // a loop: it steps by the notes that it reads
    loop {
        if t.byte()? != b'(' {
            return Err(t.at);
        }
        t.at += 1;
        if t.byte()? != b'n' {
            return head_tail(t, w, out, from);
        }
        t.at += 1;
        note(t)?;
    }
}

// Notes and record lines, up to the end of the text: how many record lines there are. Their words are stored once all are read, if there are not too
// many.
fn record_lines(t: &mut Text, words: &mut [i16]) -> Lines
    requires { length words.old ≡ record_words * text_records }
    ensures read { LinesAt t.old.bytes.now t.old.at words.old words.new result }
    ensures kept { t.new.bytes.now ≡ t.old.bytes.now }
{
    let mut own = [0i16; TEXT_WORDS];
    let mut n: usize = 0;
    // a while: it steps by the lines that it reads
    while let Ok(first) = t.byte() {
        if first != b'(' {
            return Err(t.at);
        }
        t.at += 1;
        if t.byte()? == b'n' {
            t.at += 1;
            note(t)?;
        } else {
            let mut from: usize = 0; // too many are only counted
            if n < RECORDS {
                from = RECORD_WORDS * n;
            }
            record_line(t, &mut own, from)?;
            n += 1;
        }
    }
    if n <= RECORDS {
        let many = RECORD_WORDS * n;
        put_words(words, 0, &own[0..many]);
    }
    Ok(n)
}

// The geometry's numbers, in the order of the head lines. (No From: eight numbers are in this order here alone.)
fn numbers_of(v: [i16; 8]) -> Numbers
    ensures { head_numbers result ≡ v }
{
    let h = AxisNumbers {
        base: i32::from(v[0]),
        scaled: i32::from(v[2]),
        offset: i32::from(v[4]),
        full: i32::from(v[6]),
    };
    let u = AxisNumbers {
        base: i32::from(v[1]),
        scaled: i32::from(v[3]),
        offset: i32::from(v[5]),
        full: i32::from(v[7]),
    };
    Numbers {
        horizontal: h,
        vertical: u,
    }
}

// The whole text.
pub fn parse(s: &[u8], words: &mut [i16]) -> TextParse
    requires { length words.old ≡ record_words * text_records }
    ensures { ParsedAs s.now words.old words.new result }
{
    let mut t = Text { bytes: s, at: 0 };
    let mut eight = [0i16; 8];
    head_line(&mut t, b"base ", &mut eight, 0)?;
    head_line(&mut t, b"scaled ", &mut eight, 2)?;
    head_line(&mut t, b"at ", &mut eight, 4)?;
    head_line(&mut t, b"full ", &mut eight, 6)?;
    let n = record_lines(&mut t, words)?;
    Ok((numbers_of(eight), n))
}
