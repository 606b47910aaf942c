// The layout of a motion record: where its words stand, and the numbers of types and sub-types.
ghost use Rattle.definitions.specs.Answer.{answer_type, sub_types};
ghost use Rattle.definitions.specs.Record.{type_number};
ghost use Rattle.std.specs.Prelude.{◌≡◌};

use definitions::{Answer, Split};
use motion::BlockMotion;

// ---- Words
pub const TYPE: usize = 0;

// The sub-type of quadrant q is q further.
pub const SUB_TYPES: usize = 1;

// The reference of quadrant q in list l is 2q + l further.
pub const REFERENCES: usize = 5;

// The vector of block b in list l is 4b + 2l further: horizontal, and then vertical.
pub const VECTORS: usize = 13;

// Bit q is quadrant q's (document 02, E7).
pub const DETAIL: usize = 77;

// ---- Types and sub-types (numbers, since they are words: document 01 gives them)
pub const INTRA: u8 = 0;

pub const WHOLE: u8 = 1;

pub const OUTSIDE: u8 = 5;

// The number of a split's type: no `as`, since a split may hold its sub-types.
fn type_number(s: Split) -> u8
    ensures { result ≡ type_number s }
{
    match s {
        Split::S16x16 => 1,
        Split::S16x8 => 2,
        Split::S8x16 => 3,
        Split::S8x8(_) => 4,
    }
}

// The sub-types of its quadrants: 0 unless it is 8×8.
pub fn sub_types(s: Split) -> [u8; 4]
    ensures { result ≡ sub_types s }
{
    match s {
        Split::S16x16 | Split::S16x8 | Split::S8x16 => [0; 4],
        // Their numbers are their places in the enum.
        Split::S8x8(t) => [t.a as u8, t.b as u8, t.c as u8, t.d as u8],
    }
}

// The type of the record that is written for an answer.
pub fn answer_type(a: Answer) -> u8
    ensures { result ≡ answer_type a }
{
    match a {
        Answer::Outside => OUTSIDE,
        Answer::Intra(_) => INTRA,
        Answer::Inherited(_, s) => type_number(s),
    }
}

// ---- A list that is not used, and a block without motion
pub const UNUSED: i16 = -1;

pub const NO_MOTION: BlockMotion = BlockMotion {
    r0: -1,
    r1: -1,
    x0: 0,
    y0: 0,
    x1: 0,
    y1: 0,
};
