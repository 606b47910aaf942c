// Reading the notes of a text, and the fixed bytes of its lines.
#![tactic(auto)]

ghost use Rattle.std.specs.Prelude.{◌≡◌, ◌≤◌, length};
ghost use Rattle.definitions.specs.Text.{All, Letter, Item, Rest};
ghost use Rattle.grammar.specs.Readers.{Exactly, Items, NoteTail, ReadAt, Stands, ends_at};

use grammar::{ByteClass, Got, Text};
use sync_numbers::{class_of, number};

// Where the letters end that stand at `from`. (With a place of its own: kept in the cursor, the place would be stored at each letter.)
fn letters_end(s: &[u8], from: usize) -> usize
    requires { from ≤ length s.now }
    ensures { Stands (All Letter) s.now from result }
{
    let mut p = from;
    // a while: it stops at the first byte that is no letter (which is asked of the byte: of its class, the tests for the others are made too)
    while p < s.len() {
        match s[p] {
            b'a'..=b'z' => {
                p += 1;
            }
            _ => {
                return p;
            }
        }
    }
    p
}

// The letters.
fn letters(t: &mut Text)
    ensures read { Stands (All Letter) t.old.bytes.now t.old.at t.new.at }
    ensures kept { t.new.bytes.now ≡ t.old.bytes.now }
{
    t.at = letters_end(t.bytes, t.at);
}

// A word, a number or a list. Lists nest `depth` deep at the most, and what remains of the depth falls with each.
#[cycle(item_list)]
fn item(t: &mut Text, depth: usize) -> Got
    ensures read { ReadAt (Item depth) t.old.bytes.now t.old.at (ends_at t.new.at result) }
    ensures kept { t.new.bytes.now ≡ t.old.bytes.now }
{
    let c = class_of(t.byte()?);
    match c {
        ByteClass::Alpha => {
            t.at += 1;
            letters(t);
            Ok(())
        }
        ByteClass::Zero | ByteClass::Nonzero | ByteClass::Dash => {
            number(t)?;
            Ok(())
        }
        ByteClass::Open => {
            if depth == 0 {
                return Err(t.at);
            }
            t.at += 1;
            list(t, depth - 1)
        }
        _ => Err(t.at), // so no list is empty
    }
}

// The items of a list after its bracket, one or more, each but the first after a space, and the closing bracket.
#[cycle(item_list)]
fn list(t: &mut Text, depth: usize) -> Got
    ensures read { ReadAt (Items depth) t.old.bytes.now t.old.at (ends_at t.new.at result) }
    ensures kept { t.new.bytes.now ≡ t.old.bytes.now }
{
    // a loop: it steps by what it reads
    loop {
        item(t, depth)?;
        let c = class_of(t.byte()?);
        match c {
            ByteClass::Close => {
                t.at += 1;
                return Ok(());
            }
            ByteClass::Space => {
                t.at += 1;
            }
            _ => {
                return Err(t.at);
            }
        }
    }
}

// The bytes of w.
pub fn word_at(t: &mut Text, w: &[u8]) -> Got
    ensures read { ReadAt (Exactly w.now) t.old.bytes.now t.old.at (ends_at t.new.at result) }
    ensures kept { t.new.bytes.now ≡ t.old.bytes.now }
{
    for b in w {
        if t.byte()? != *b {
            return Err(t.at);
        }
        t.at += 1;
    }
    Ok(()) // t stands behind w
}

// More items or none, each after a space, and the closing bracket.
fn rest_of(t: &mut Text, depth: usize) -> Got
    ensures read { ReadAt (Rest (Item depth)) t.old.bytes.now t.old.at (ends_at t.new.at result) }
    ensures kept { t.new.bytes.now ≡ t.old.bytes.now }
{
    let c = class_of(t.byte()?);
    match c {
        ByteClass::Close => {
            t.at += 1;
            Ok(()) // no more items
        }
        ByteClass::Space => {
            t.at += 1;
            list(t, depth)
        }
        _ => Err(t.at),
    }
}

// A note after its bracket and its n. To depth 8 with the note at 1: lists nest 7 deep in it.
#[inline] // a call for each note is 5 % of the text call's instructions
pub fn note(t: &mut Text) -> Got
    ensures read { ReadAt NoteTail t.old.bytes.now t.old.at (ends_at t.new.at result) }
    ensures kept { t.new.bytes.now ≡ t.old.bytes.now }
{
    word_at(t, b"ote")?;
    rest_of(t, 7)?;
    word_at(t, b"\n")
}
