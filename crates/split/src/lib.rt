// Step 5 of "Inheriting" on motions by value; and the number of a split's pieces.
#![tactic(auto)]

ghost use Rattle.std.specs.Prelude.{◌≤◌, [], ◌∷◌, ◌≡◌};
ghost use Rattle.definitions.specs.Inheriting.{chosen};
ghost use Rattle.definitions.specs.Record.{sub_type_number};
ghost use Rattle.definitions.specs.Splits.{count, same_motion, sub_count};
ghost use Rattle.motion.specs.ByValue.{OneReference, motion_in, motions_in, quadrants_in, same_vectors_in};
ghost use Rattle.split.specs.Quadrant.{sub_chosen};
ghost use Rattle.split.specs.Types.{OneReferenceEach, type_among, types_of};

use definitions::{Split, SubSplit};
use motion::BlockMotion;

// Two blocks have the same vectors: all four words are compared, and none by a branch. (`==` would compare the references too, which are one here: six words in place of four.)
fn same_vectors(p: BlockMotion, q: BlockMotion) -> bool
    ensures { result ≡ same_vectors_in p q }
{
    (p.x0 == q.x0) & (p.y0 == q.y0) & (p.x1 == q.x1) & (p.y1 == q.y1)
}

// The sub-type of a quadrant, 0 1 above 2 3, with the fewest pieces: which of its rows and columns have one motion tells it (`sub-chosen-is`). The blocks have one
// reference in each list, so that their vectors tell the motion.
#[inline(never)] // inlined, the arrays are taken apart word by word: 3 to 8 % of the narrow picture call's instructions
pub fn sub_type_of(m: [BlockMotion; 4]) -> u8
    requires { OneReference m }
    ensures { (result ≡ sub_type_number (sub_chosen (motions_in m))) × (result ≤ 3) }
{
    let rows = same_vectors(m[0], m[1]) & same_vectors(m[2], m[3]);
    let columns = same_vectors(m[0], m[2]) & same_vectors(m[1], m[3]);
    3 - 2 * (rows as u8) - columns as u8
}

// ---- The type
// Two blocks have the same motion: references and vectors.
#[tactic(auto, using(crate::proofs::Vectors::same_both))]
fn same_motion(p: BlockMotion, q: BlockMotion) -> bool
    ensures { result ≡ same_motion (motion_in p) (motion_in q) }
{
    p == q
}

// The type where no quadrant is divided, by the motions of the quadrants' first blocks: which rows and columns of quadrants have one motion.
#[inline(never)] // as `sub_type_of`
pub fn type_of(a: BlockMotion, b: BlockMotion, c: BlockMotion, d: BlockMotion) -> u8
    ensures { (result ≡ type_among (motion_in a ∷ motion_in b ∷ motion_in c ∷ motion_in d ∷ [])) × (result ≤ 4) }
{
    let rows = same_motion(a, b) & same_motion(c, d);
    let columns = same_motion(a, c) & same_motion(b, d);
    4 - 2 * (rows as u8) - columns as u8
}

// The type of a split, and the sub-types of quadrants 0 to 3: as numbers, since rows and columns give the number without a branch, and it is the number that is written.
#[derive(Clone, Copy)]
pub struct Types {
    pub kind: u8,
    pub a: u8,
    pub b: u8,
    pub c: u8,
    pub d: u8,
}

// The types of the split with the fewest pieces of four quadrants of four blocks, of which each has one reference in each list.
// With a divided quadrant the type is 4 (`chosen-quarters`), else the first blocks of the quadrants tell it (`chosen-whole`).
pub fn types_of(m: [[BlockMotion; 4]; 4]) -> Types
    requires { OneReferenceEach m }
    ensures { result ≡ types_of (chosen (quadrants_in m)) }
{
    let a = sub_type_of(m[0]);
    let b = sub_type_of(m[1]);
    let c = sub_type_of(m[2]);
    let d = sub_type_of(m[3]);
    let kind = if a + b + c + d == 0 {
        type_of(m[0][0], m[1][0], m[2][0], m[3][0])
    } else {
        4
    };
    Types { kind, a, b, c, d }
}

// ---- The number of pieces
fn sub_pieces(s: SubSplit) -> u32
    ensures { (result ≡ sub_count s) × (result ≤ 4) }
{
    match s {
        SubSplit::S8x8 => 1,
        SubSplit::S8x4 => 2,
        SubSplit::S4x8 => 2,
        SubSplit::S4x4 => 4,
    }
}

// The number of pieces of a split.
pub fn pieces_of(s: Split) -> u32
    ensures { result ≡ count s }
{
    match s {
        Split::S16x16 => 1,
        Split::S16x8 => 2,
        Split::S8x16 => 2,
        Split::S8x8(t) => { sub_pieces(t.a) + sub_pieces(t.b) + sub_pieces(t.c) + sub_pieces(t.d) }
    }
}
