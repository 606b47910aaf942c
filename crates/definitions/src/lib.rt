// The types that the definitions of specs/ speak of, the words of a record, and the limits of vectors. No function stands here.
#![tactic(auto)]

// ---- Geometry
// Two scales, in luma samples, and a position on one never serves on the other: base samples (003's base layer reference) and enhancement samples
// (its high layer reference). A displacement on the enhancement scale has a sign.
#[derive(Clone, Copy)]
pub struct BaseSample(pub u32);

#[derive(Clone, Copy)]
pub struct EnhancementSample(pub u32);

#[derive(Clone, Copy)]
pub struct EnhancementOffset(pub i32);

// An axis as it is lent: any numbers.
#[derive(Clone, Copy)]
pub struct AxisNumbers {
    pub base: i32,
    pub scaled: i32,
    pub offset: i32,
    pub full: i32,
}

#[derive(Clone, Copy)]
pub struct Numbers {
    pub horizontal: AxisNumbers,
    pub vertical: AxisNumbers,
}

// An axis: B, S, o and E of document 01.
#[derive(Clone, Copy)]
pub struct Axis {
    pub base: BaseSample,
    pub scaled: EnhancementSample,
    pub offset: EnhancementOffset,
    pub full: EnhancementSample,
}

#[derive(Clone, Copy)]
pub struct Axes {
    pub horizontal: Axis,
    pub vertical: Axis,
}

// What an axis gives for one macroblock: k, M (003's MbBorder), N (its B8x8Border), F, whether two columns (rows) are read, the base 4 by 4
// coordinates that the four blocks along the axis read, and how many of these fall in the first column (row; document 02, E5).
#[derive(Clone, Copy)]
pub struct AxisStep {
    pub k: u32,
    pub border: EnhancementOffset,
    pub border8: EnhancementOffset,
    pub first: u32,
    pub two: bool,
    pub reads: [u32; 4],
    pub falls: u32,
}

#[derive(Clone, Copy)]
pub enum Class {
    Corner,
    Vert,
    Hori,
    Center,
}

// ---- Motion
// The words of a motion record.
pub const RECORD_WORDS: usize = 78;

// The limits of vectors by width (document 02, E12).
pub const NARROW: u32 = 8192;

pub const WIDE: u32 = 131072;

// A list's part of a block's motion: its reference, -1 unused, and its vector in quarter samples. (In 32 bits, for records of both widths: document 02, E12.)
#[derive(Clone, Copy)]
pub struct Prediction {
    pub reference: i32,
    pub x: i32,
    pub y: i32,
}

#[derive(Clone, Copy)]
pub struct Motion {
    pub list0: Prediction,
    pub list1: Prediction,
}

// ---- Splits
#[derive(Clone, Copy)]
pub enum SubSplit {
    S8x8,
    S8x4,
    S4x8,
    S4x4,
}

// The sub-splits of quadrants 0 to 3.
#[derive(Clone, Copy)]
pub struct SubSplits {
    pub a: SubSplit,
    pub b: SubSplit,
    pub c: SubSplit,
    pub d: SubSplit,
}

#[derive(Clone, Copy)]
pub enum Split {
    S16x16,
    S16x8,
    S8x16,
    S8x8(SubSplits),
}

// ---- The answer
// What an answer names: the class, and the first base column and row.
#[derive(Clone, Copy)]
pub struct Origin {
    pub class: Class,
    pub column: u32,
    pub row: u32,
}

// What an answer says of a macroblock inside the window, besides its split: what it names; which of its quadrants carry detail (document 02, E7): bit q of 0..15 is quadrant
// q's; and how many of its sixteen blocks read the base macroblocks at first, right, below and diagonal (E5).
#[derive(Clone, Copy)]
pub struct Basis {
    pub origin: Origin,
    pub detail: u8,
    pub first: u8,
    pub right: u8,
    pub below: u8,
    pub diagonal: u8,
}

#[derive(Clone, Copy)]
pub enum Answer {
    Outside,
    Intra(Basis),
    Inherited(Basis, Split),
}

// ---- Refusals
// Document 01's number, the place (0 unless given), and of refusal 8 the broken rule (else 0).
#[derive(Clone, Copy)]
pub struct Refusal {
    pub number: u32,
    pub place: u32,
    pub rule: u32,
}

// Ok: accepted.
pub type Verdict = Result<(), Refusal>;

// ---- Calls
// Ok: what was answered.
pub type MacroblockReply = Result<Answer, Refusal>;

#[derive(Clone, Copy)]
pub struct Counts {
    pub inherited: u32,
    pub intra: u32,
    pub outside: u32,
}

// Ok: what was counted.
pub type PictureReply = Result<Counts, Refusal>;

// What a text gives: the geometry's numbers and the count of record lines.
#[derive(Clone, Copy)]
pub struct TextRead {
    pub numbers: Numbers,
    pub lines: u32,
}

// Ok: what was read, or None where the text has no bytes and so means no picture (document 02, E2).
pub type TextReply = Result<Option<TextRead>, Refusal>;

// What the log call gives: the length of the log, the verdict on the text that its lines say, and whether the text is empty and so means no picture.
// (A flag, no Option: a log has its bytes in each case, and C is handed the flag.)
#[derive(Clone, Copy)]
pub struct Logged {
    pub bytes: usize,
    pub verdict: Verdict,
    pub empty: bool,
}

// Ok: what was written. Err: why no log is written.
pub type LogReply = Result<Logged, Refusal>;
