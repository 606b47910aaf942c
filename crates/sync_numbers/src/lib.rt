// Reading the numbers of a text. A number is read as long as it goes: what comes after it is the caller's.
#![tactic(auto)]

ghost use Rattle.std.specs.Prelude.{◌≡◌, ◌≤◌, length};
ghost use Rattle.definitions.specs.Text.{Number};
ghost use Rattle.grammar.specs.Readers.{byte_class_of, AfterMinus, DigitsAt, FieldOf, NumAt, up_to};

use grammar::{ByteClass, Num, Text};

// What a byte is.
#[tactic(auto, unfolding(grammar::specs::Readers::byte_class_of))]
pub fn class_of(b: u8) -> ByteClass
    ensures { result ≡ byte_class_of b }
{
    match b {
        b'a'..=b'z' => ByteClass::Alpha,
        b'1'..=b'9' => ByteClass::Nonzero,
        b'0' => ByteClass::Zero,
        b'-' => ByteClass::Dash,
        b'(' => ByteClass::Open,
        b')' => ByteClass::Close,
        b' ' => ByteClass::Space,
        _ => ByteClass::Other,
    }
}

// The digits of a number after digits worth a. They end before the digit with which they would be worth more than top.
fn figures(t: &mut Text, a: u32, top: u32) -> u32
    requires { (a ≤ top) × (top ≤ 32768) }
    ensures read { DigitsAt t.old.bytes.now t.old.at a top result t.new.at }
    ensures kept { t.new.bytes.now ≡ t.old.bytes.now }
{
    let mut n = a;
    let mut p = t.at; // the place within the digits; in t, at each of them, it takes 7 % more instructions of the text call
    // a while: it stops at the first byte that is no digit, or one too many; tried as `while let` over t's next byte, which misses the 5 % (7 more, above)
    while p < t.bytes.len() {
        let b = t.bytes[p];
        let c = class_of(b);
        match c {
            ByteClass::Zero | ByteClass::Nonzero => {
                let m = 10 * n + (b as u32 - 48);
                if m > top {
                    break;
                }
                n = m;
                p += 1;
            }
            _ => {
                break;
            }
        }
    }
    t.at = p;
    n
}

// A number after its minus: 1 to 32,768, so no −0.
fn dashed(t: &mut Text) -> Num
    ensures read { NumAt AfterMinus t.old.bytes.now t.old.at (up_to t.new.at result) }
    ensures kept { t.new.bytes.now ≡ t.old.bytes.now }
{
    let b = t.byte()?;
    let c = class_of(b);
    match c {
        ByteClass::Nonzero => {
            t.at += 1;
            let n = figures(t, b as u32 - 48, 32768);
            Ok((0 - (n as i32)) as i16)
        }
        _ => Err(t.at),
    }
}

// A number, with no leading zero.
pub fn number(t: &mut Text) -> Num
    ensures read { NumAt Number t.old.bytes.now t.old.at (up_to t.new.at result) }
    ensures kept { t.new.bytes.now ≡ t.old.bytes.now }
{
    let b = t.byte()?;
    let c = class_of(b);
    match c {
        ByteClass::Zero => {
            t.at += 1;
            Ok(0)
        }
        ByteClass::Nonzero => {
            t.at += 1;
            let n = figures(t, b as u32 - 48, 32767);
            Ok(n as i16)
        }
        ByteClass::Dash => {
            t.at += 1;
            dashed(t)
        }
        _ => Err(t.at),
    }
}

// A number and what separates it from the next: a closing bracket if it is the last, else a space. (A flag, compared: as a closure or an enum it is no plainer.)
pub fn field(t: &mut Text, last: bool) -> Num
    ensures read { NumAt (FieldOf last) t.old.bytes.now t.old.at (up_to t.new.at result) }
    ensures kept { t.new.bytes.now ≡ t.old.bytes.now }
{
    let z = number(t)?;
    let closer = if last { b')' } else { b' ' };
    if t.byte()? != closer {
        return Err(t.at);
    }
    t.at += 1;
    Ok(z)
}
