// The C interface: the calls on numbers and slices, with results by value. include/spiewomir.h declares it.
#![tactic(auto)]

ghost use Rattle.definitions.specs.Record.{narrow, wide};
ghost use Rattle.definitions.specs.Answer.{answer_basis};
ghost use Rattle.definitions.specs.Calls.{macroblock_call, picture_call};
ghost use Rattle.definitions.specs.Session.{next_call};
ghost use Rattle.spiewomir.specs.Demands.{MacroblockGiven, NextGiven, PictureGiven};
ghost use Rattle.spiewomir.specs.Results.{answer_result, answer_sub_types, class_number, macroblock_result, numbers_from_c, picture_result};
ghost use Rattle.spiewomir.specs.Sessions.{abandon_gives, advanced_result, begin_gives, judged_result, next_gives, numbers_to_c, session_from_c, session_to_c, totals_gives};
ghost use Rattle.spiewomir.specs.Texts.{LogGiven, TextGiven, log_result, text_result, written_result};
ghost use Rattle.spiewomir.specs.Version.{version};
ghost use Rattle.session.specs.Values.{fresh_session, state_of};
ghost use Rattle.std.specs.Prelude.{◌≡◌};

use definitions::{
    Answer, AxisNumbers, Basis, Class, Counts, LogReply, Logged, MacroblockReply, Numbers, Origin,
    PictureReply, TextReply, Verdict,
};
use picture::upsample_picture;
use records::layout::{answer_type, sub_types};
use session::{Advanced, Judged, Session};
use sync_text::read_text;
use upsample::upsample_macroblock;

// Width and height of the base, the scaled base, the window's offset, and the full picture: any numbers.
#[repr(C)]
#[derive(Clone, Copy)]
pub struct GeometryNumbers {
    pub bw: i32,
    pub bh: i32,
    pub sw: i32,
    pub sh: i32,
    pub x: i32,
    pub y: i32,
    pub fw: i32,
    pub fh: i32,
}

// A refusal's number, place and rule, or 0, 0, 0 and the answer: its type, sub-types, class (Corner, Vert, Hori, Center), first base column and row.
#[repr(C)]
#[derive(Clone, Copy)]
pub struct MacroblockResult {
    pub refusal: u32,
    pub place: u32,
    pub rule: u32,
    pub kind: u32,
    pub sub0: u32,
    pub sub1: u32,
    pub sub2: u32,
    pub sub3: u32,
    pub class: u32,
    pub column: u32,
    pub row: u32,
    pub detail: u32,
    pub first: u32,
    pub right: u32,
    pub below: u32,
    pub diagonal: u32,
}

#[repr(C)]
#[derive(Clone, Copy)]
pub struct PictureResult {
    pub refusal: u32,
    pub place: u32,
    pub rule: u32,
    pub inherited: u32,
    pub intra: u32,
    pub outside: u32,
}

// A session: begun (1, any other number is nothing begun), its geometry, and the counts of its accepted next calls.
#[repr(C)]
#[derive(Clone, Copy)]
pub struct SessionNumbers {
    pub begun: u32,
    pub geometry: GeometryNumbers,
    pub inherited: u32,
    pub intra: u32,
    pub outside: u32,
}

#[repr(C)]
#[derive(Clone, Copy)]
pub struct JudgedResult {
    pub session: SessionNumbers,
    pub refusal: u32,
    pub place: u32,
    pub rule: u32,
}

#[repr(C)]
#[derive(Clone, Copy)]
pub struct AdvancedResult {
    pub session: SessionNumbers,
    pub macroblock: MacroblockResult,
}

#[repr(C)]
#[derive(Clone, Copy)]
pub struct TotalsResult {
    pub session: SessionNumbers,
    pub inherited: u32,
    pub intra: u32,
    pub outside: u32,
}

// A refusal's number, place and rule, or 0, 0, 0, the geometry's numbers and the count of record lines; `empty` is 1 where the text means no picture, and then all else is 0.
#[repr(C)]
#[derive(Clone, Copy)]
pub struct TextResult {
    pub refusal: u32,
    pub place: u32,
    pub rule: u32,
    pub geometry: GeometryNumbers,
    pub lines: u32,
    pub empty: u32,
}

// The call's own refusal, 6 or 0; and, with 0, the log's count of bytes and the text's refusal that it says, with its place and rule, or 0, 0, 0;
// `empty` is 1 where the text means no picture. (The header's `text_refusal` is `text` here.)
#[repr(C)]
#[derive(Clone, Copy)]
pub struct LogResult {
    pub refusal: u32,
    pub text: u32,
    pub place: u32,
    pub rule: u32,
    pub bytes: usize,
    pub empty: u32,
}

// The numbers of the axes.
impl From<GeometryNumbers> for Numbers {
    ghost from_gives = { λ g n. n ≡ numbers_from_c g };

    fn from(g: GeometryNumbers) -> Numbers {
        Numbers {
            horizontal: AxisNumbers {
                base: g.bw,
                scaled: g.sw,
                offset: g.x,
                full: g.fw,
            },
            vertical: AxisNumbers {
                base: g.bh,
                scaled: g.sh,
                offset: g.y,
                full: g.fh,
            },
        }
    }
}

// The header's numbers of the classes.
// (A match and no cast: the must-fail edit classes_alike changes one number here and in the definition alike.)
fn class_number(c: Class) -> u32
    ensures { result ≡ class_number c }
{
    match c {
        Class::Corner => 0,
        Class::Vert => 1,
        Class::Hori => 2,
        Class::Center => 3,
    }
}

// Outside as document 01 has it, and fed by nothing.
const OUTSIDE: Basis = Basis {
    origin: Origin {
        class: Class::Corner,
        column: 0,
        row: 0,
    },
    detail: 0, // no bits
    first: 0,
    right: 0,
    below: 0,
    diagonal: 0,
};

// What an answer says besides its split.
fn basis_of(a: Answer) -> Basis
    ensures { result ≡ answer_basis a }
{
    match a {
        Answer::Outside => OUTSIDE,
        Answer::Intra(b) => b,
        Answer::Inherited(b, _) => b,
    }
}

// The sub-types of an answer, 0 where it has no 8×8 split.
fn sub_types_of(a: Answer) -> [u8; 4]
    ensures { result ≡ answer_sub_types a }
{
    match a {
        Answer::Outside => [0; 4],
        Answer::Intra(_) => [0; 4],
        Answer::Inherited(_, s) => sub_types(s),
    }
}

// An answer as its numbers.
impl From<Answer> for MacroblockResult {
    ghost from_gives = { λ a n. n ≡ answer_result a };

    fn from(a: Answer) -> MacroblockResult {
        let sub = sub_types_of(a);
        let basis = basis_of(a);
        let origin = basis.origin;
        let class = origin.class;
        MacroblockResult {
            refusal: 0,
            place: 0,
            rule: 0,
            kind: answer_type(a) as u32,
            sub0: sub[0] as u32,
            sub1: sub[1] as u32,
            sub2: sub[2] as u32,
            sub3: sub[3] as u32,
            class: class_number(class),
            column: origin.column,
            row: origin.row,
            detail: basis.detail as u32,
            first: basis.first as u32,
            right: basis.right as u32,
            below: basis.below as u32,
            diagonal: basis.diagonal as u32,
        }
    }
}

// A reply as its numbers: a refusal gives no answer.
impl From<MacroblockReply> for MacroblockResult {
    ghost from_gives = { λ r n. n ≡ macroblock_result r };

    fn from(r: MacroblockReply) -> MacroblockResult {
        match r {
            Ok(a) => a.into(),
            Err(r) => MacroblockResult {
                refusal: r.number,
                place: r.place,
                rule: r.rule,
                kind: 0,
                sub0: 0,
                sub1: 0,
                sub2: 0,
                sub3: 0,
                class: 0,
                column: 0,
                row: 0,
                detail: 0,
                first: 0,
                right: 0,
                below: 0,
                diagonal: 0,
            },
        }
    }
}

// The one-macroblock call.
#[unsafe(no_mangle)]
pub extern "C" fn spiewomir_macroblock(
    g: GeometryNumbers,
    base: &[i16],
    column: i32,
    row: i32,
    out: &mut [i16],
) -> MacroblockResult
    ensures result { result ≡ macroblock_result (macroblock_call narrow (numbers_from_c g) base.now column row out.old).reply }
    ensures words { out.new ≡ (macroblock_call narrow (numbers_from_c g) base.now column row out.old).words }
    ensures demand3 { MacroblockGiven narrow (numbers_from_c g) base.now column row out.old result out.new }
{
    upsample_macroblock::<i16>(g.into(), base, column, row, out).into()
}

// The picture call's reply.
impl From<PictureReply> for PictureResult {
    ghost from_gives = { λ reply n. n ≡ picture_result reply };

    fn from(reply: PictureReply) -> PictureResult {
        match reply {
            Ok(c) => PictureResult {
                refusal: 0,
                place: 0,
                rule: 0,
                inherited: c.inherited,
                intra: c.intra,
                outside: c.outside,
            },
            Err(r) => PictureResult {
                refusal: r.number,
                place: r.place,
                rule: r.rule,
                inherited: 0,
                intra: 0,
                outside: 0,
            },
        }
    }
}

// The picture call.
#[unsafe(no_mangle)]
pub extern "C" fn spiewomir_picture(
    g: GeometryNumbers,
    base: &[i16],
    out: &mut [i16],
) -> PictureResult
    ensures result { result ≡ picture_result (picture_call narrow (numbers_from_c g) base.now out.old).reply }
    ensures words { out.new ≡ (picture_call narrow (numbers_from_c g) base.now out.old).words }
    ensures demand3 { PictureGiven narrow (numbers_from_c g) base.now out.old result out.new }
{
    upsample_picture::<i16>(g.into(), base, out).into()
}

// The one-macroblock call on records of 32-bit words (document 02, E12).
#[unsafe(no_mangle)]
pub extern "C" fn spiewomir_macroblock_wide(
    g: GeometryNumbers,
    base: &[i32],
    column: i32,
    row: i32,
    out: &mut [i32],
) -> MacroblockResult
    ensures result { result ≡ macroblock_result (macroblock_call wide (numbers_from_c g) base.now column row out.old).reply }
    ensures words { out.new ≡ (macroblock_call wide (numbers_from_c g) base.now column row out.old).words }
    ensures demand3 { MacroblockGiven wide (numbers_from_c g) base.now column row out.old result out.new }
{
    upsample_macroblock::<i32>(g.into(), base, column, row, out).into()
}

// The picture call on them.
#[unsafe(no_mangle)]
pub extern "C" fn spiewomir_picture_wide(
    g: GeometryNumbers,
    base: &[i32],
    out: &mut [i32],
) -> PictureResult
    ensures result { result ≡ picture_result (picture_call wide (numbers_from_c g) base.now out.old).reply }
    ensures words { out.new ≡ (picture_call wide (numbers_from_c g) base.now out.old).words }
    ensures demand3 { PictureGiven wide (numbers_from_c g) base.now out.old result out.new }
{
    upsample_picture::<i32>(g.into(), base, out).into()
}

// ---- The session. A refused call hands back the very numbers that it was handed.
impl From<Numbers> for GeometryNumbers {
    ghost from_gives = { λ n g. g ≡ numbers_to_c n };

    fn from(n: Numbers) -> GeometryNumbers {
        GeometryNumbers {
            bw: n.horizontal.base,
            bh: n.vertical.base,
            sw: n.horizontal.scaled,
            sh: n.vertical.scaled,
            x: n.horizontal.offset,
            y: n.vertical.offset,
            fw: n.horizontal.full,
            fh: n.vertical.full,
        }
    }
}

// The session that the numbers stand for.
impl From<SessionNumbers> for Session {
    ghost from_gives = { λ s n. n ≡ session_from_c s };

    fn from(s: SessionNumbers) -> Session {
        let geometry = s.geometry;
        Session {
            begun: s.begun == 1,
            numbers: geometry.into(),
            counts: Counts {
                inherited: s.inherited,
                intra: s.intra,
                outside: s.outside,
            },
        }
    }
}

// The numbers of a session.
impl From<Session> for SessionNumbers {
    ghost from_gives = { λ v n. n ≡ session_to_c v };

    fn from(v: Session) -> SessionNumbers {
        let numbers = v.numbers;
        SessionNumbers {
            begun: v.begun as u32,
            geometry: numbers.into(),
            inherited: v.counts.inherited,
            intra: v.counts.intra,
            outside: v.counts.outside,
        }
    }
}

// What begin and abandon give. (This and the next are no From: the numbers that were handed over are needed too.)
fn judged_result(s: SessionNumbers, j: Judged) -> JudgedResult
    ensures { result ≡ judged_result s j.verdict j.session }
{
    let verdict = j.verdict;
    let after = j.session;
    match verdict {
        Ok(()) => JudgedResult {
            session: after.into(),
            refusal: 0,
            place: 0,
            rule: 0,
        },
        Err(r) => JudgedResult {
            session: s,
            refusal: r.number,
            place: r.place,
            rule: r.rule,
        },
    }
}

// What next gives.
fn advanced_result(s: SessionNumbers, a: Advanced) -> AdvancedResult
    ensures { result ≡ advanced_result s a.reply a.session }
{
    let reply = a.reply;
    let after = a.session;
    let macroblock: MacroblockResult = reply.into();
    match reply {
        Ok(_) => AdvancedResult {
            session: after.into(),
            macroblock,
        },
        Err(_) => AdvancedResult {
            session: s,
            macroblock,
        },
    }
}

// A fresh session.
#[unsafe(no_mangle)]
pub extern "C" fn spiewomir_session_fresh() -> SessionNumbers
    ensures { result ≡ session_to_c fresh_session }
{
    Session::fresh().into()
}

// Begins a picture.
#[unsafe(no_mangle)]
pub extern "C" fn spiewomir_session_begin(s: SessionNumbers, g: GeometryNumbers) -> JudgedResult
    ensures { result ≡ begin_gives s g }
{
    let v: Session = s.into();
    judged_result(s, v.begin(g.into()))
}

// Makes the next macroblock.
#[unsafe(no_mangle)]
pub extern "C" fn spiewomir_session_next(
    s: SessionNumbers,
    base: &[i16],
    out: &mut [i16],
) -> AdvancedResult
    ensures result { result ≡ next_gives s base.now out.old }
    ensures words { out.new ≡ (next_call (state_of (session_from_c s)) base.now out.old).words }
    ensures demand3 { NextGiven s base.now out.old result out.new }
{
    let v: Session = s.into();
    advanced_result(s, v.next(base, out))
}

// Makes the session fresh.
#[unsafe(no_mangle)]
pub extern "C" fn spiewomir_session_abandon(s: SessionNumbers) -> JudgedResult
    ensures { result ≡ abandon_gives s }
{
    let v: Session = s.into();
    judged_result(s, v.abandon())
}

// The counts of its accepted next calls.
#[unsafe(no_mangle)]
pub extern "C" fn spiewomir_session_totals(s: SessionNumbers) -> TotalsResult
    ensures { result ≡ totals_gives s }
{
    let v: Session = s.into();
    let t = v.totals();
    TotalsResult {
        session: s,
        inherited: t.counts.inherited,
        intra: t.counts.intra,
        outside: t.counts.outside,
    }
}

// ---- The sync text and its log
const NO_GEOMETRY: GeometryNumbers = GeometryNumbers {
    bw: 0,
    bh: 0,
    sw: 0,
    sh: 0,
    x: 0,
    y: 0,
    fw: 0,
    fh: 0,
};

// A text's reply as its numbers.
impl From<TextReply> for TextResult {
    ghost from_gives = { λ reply n. n ≡ text_result reply };

    fn from(reply: TextReply) -> TextResult {
        match reply {
            Ok(None) => TextResult {
                refusal: 0,
                place: 0,
                rule: 0,
                geometry: NO_GEOMETRY,
                lines: 0,
                empty: 1,
            },
            Ok(Some(t)) => {
                let numbers = t.numbers;
                TextResult {
                    refusal: 0,
                    place: 0,
                    rule: 0,
                    geometry: numbers.into(),
                    lines: t.lines,
                    empty: 0,
                }
            }
            Err(r) => TextResult {
                refusal: r.number,
                place: r.place,
                rule: r.rule,
                geometry: NO_GEOMETRY,
                lines: 0,
                empty: 0,
            },
        }
    }
}

// Reads a sync text.
#[unsafe(no_mangle)]
pub extern "C" fn spiewomir_text(text: &[u8], words: &mut [i16]) -> TextResult
    ensures { TextGiven text.now words.old result words.new }
{
    read_text(text, words).into()
}

// A written log, with the text's refusal, and whether there is no picture.
impl From<Logged> for LogResult {
    ghost from_gives = { λ l n. n ≡ written_result l.bytes l.verdict l.empty };

    fn from(l: Logged) -> LogResult {
        let bytes = l.bytes;
        let empty = l.empty as u32;
        let verdict = l.verdict;
        match verdict {
            Ok(()) => LogResult {
                refusal: 0,
                text: 0,
                place: 0,
                rule: 0,
                bytes,
                empty,
            },
            Err(r) => LogResult {
                refusal: 0,
                text: r.number,
                place: r.place,
                rule: r.rule,
                bytes,
                empty,
            },
        }
    }
}

// The log call's reply as its numbers.
impl From<LogReply> for LogResult {
    ghost from_gives = { λ reply n. n ≡ log_result reply };

    fn from(reply: LogReply) -> LogResult {
        match reply {
            Ok(l) => l.into(),
            Err(r) => LogResult {
                refusal: r.number,
                text: 0,
                place: 0,
                rule: 0,
                bytes: 0,
                empty: 0,
            },
        }
    }
}

// The log of a sync text.
#[unsafe(no_mangle)]
pub extern "C" fn spiewomir_log(text: &[u8], out: &mut [u8]) -> LogResult
    ensures { LogGiven text.now out.old result out.new }
{
    log_text::log(text, out).into()
}

// ---- The version: major · 10,000 + minor · 100 + patch
#[unsafe(no_mangle)]
pub extern "C" fn spiewomir_version() -> u32
    ensures { result ≡ version }
{
    50100
}
