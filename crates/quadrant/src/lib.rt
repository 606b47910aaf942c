// Steps 1 and 2 of "Inheriting", on one quadrant of four blocks in raster order, 0 1 above 2 3.
#![tactic(auto)]

ghost use Rattle.std.specs.Prelude.{◌≡◌, ◌<◌};
ghost use Rattle.definitions.specs.Basics.{pick};
ghost use Rattle.definitions.specs.Inheriting.{filled, merged, source};
ghost use Rattle.motion.specs.ByValue.{AllReferring, Reference, motions_in};
ghost use Rattle.quadrant.specs.Merging.{AllEmpty, having4, joined_of, lowest_of, rank_of};

use motion::BlockMotion;

// ---- Neighbours in a square of four. Quadrants stand in a macroblock as blocks do in a quadrant.
pub const HORIZONTAL: [usize; 4] = [1, 0, 3, 2];

pub const VERTICAL: [usize; 4] = [2, 3, 0, 1];

const DIAGONAL: [usize; 4] = [3, 2, 1, 0];

// The block that block k takes its motion from: itself if it is good, else the first good neighbour.
fn source_of(good: [bool; 4], k: usize) -> usize
    requires { k < 4 }
    ensures { (result ≡ source good k) × (result < 4) }
{
    let h = HORIZONTAL[k];
    let v = VERTICAL[k];
    let d = DIAGONAL[k];
    if good[k] {
        return k;
    }
    if good[h] {
        return h;
    }
    if good[v] {
        return v;
    }
    if good[d] {
        return d;
    }
    k
}

// ---- Step 1: intra blocks take a neighbour's motion.
pub fn fill(clear: [bool; 4], m: [BlockMotion; 4]) -> [BlockMotion; 4]
    ensures { motions_in result ≡ filled clear (motions_in m) }
{
    let a = m[source_of(clear, 0)];
    let b = m[source_of(clear, 1)];
    let c = m[source_of(clear, 2)];
    let d = m[source_of(clear, 3)];
    [a, b, c, d]
}

// ---- Step 2: one reference for the quadrant in each list.
// Which reference is lower, and whose vector is taken, cannot be predicted: no test here is a branch.
// A reference's rank: the lower used one is below the higher, and unused is above all.
fn rank_of(r: i32) -> u32
    requires { Reference r }
    ensures { result ≡ rank_of r }
{
    ((r + 1) as u32).wrapping_sub(1)
}

// The lowest used reference of the four, unused if none is used.
fn lowest_of(p: i32, q: i32, s: i32, t: i32) -> i32
    requires { Reference p × Reference q × Reference s × Reference t }
    ensures { result ≡ lowest_of p q s t }
{
    let above = rank_of(p).min(rank_of(q));
    let below = rank_of(s).min(rank_of(t));
    above.min(below).wrapping_add(1) as i32 - 1
}

// Of one list: the lowest used reference, and the block whose vector each block takes with it.
#[derive(Clone, Copy)]
struct Sources {
    reference: i32,
    a: usize,
    b: usize,
    c: usize,
    d: usize,
}

#[tactic(auto, unfolding(definitions::specs::Basics::pick))]
fn either(own: bool, one: usize, other: usize) -> usize
    ensures { result ≡ pick own one other }
{
    if own { one } else { other }
}

// Some block has it: of a row of two, the block itself or the other; if neither has it, the same in the other row.
fn sources_of(p: i32, q: i32, s: i32, t: i32) -> Sources
    requires { Reference p × Reference q × Reference s × Reference t }
    ensures reference { result.reference ≡ lowest_of p q s t }
    ensures a { (result.a ≡ source (having4 p q s t) 0) × (result.a < 4) }
    ensures b { (result.b ≡ source (having4 p q s t) 1) × (result.b < 4) }
    ensures c { (result.c ≡ source (having4 p q s t) 2) × (result.c < 4) }
    ensures d { (result.d ≡ source (having4 p q s t) 3) × (result.d < 4) }
{
    let reference = lowest_of(p, q, s, t);
    let above = (p == reference) | (q == reference);
    let below = (s == reference) | (t == reference);
    let a = either(p == reference, 0, 1);
    let b = either(q == reference, 1, 0);
    let c = either(s == reference, 2, 3);
    let d = either(t == reference, 3, 2);
    Sources {
        reference,
        a: either(above, a, c),
        b: either(above, b, d),
        c: either(below, c, a),
        d: either(below, d, b),
    }
}

// The references, with the vector of list 0 from one block and that of list 1 from another.
fn joined(r0: i32, r1: i32, one: BlockMotion, other: BlockMotion) -> BlockMotion
    ensures { result ≡ joined_of r0 r1 one other }
{
    BlockMotion {
        r0,
        r1,
        x0: one.x0,
        y0: one.y0,
        x1: other.x1,
        y1: other.y1,
    }
}

// Both lists of the four blocks. Where no block uses a list all have -1 there, and each keeps its own vector, which is 0 (`AllEmpty`).
pub fn merge(m: [BlockMotion; 4]) -> [BlockMotion; 4]
    requires { AllEmpty (motions_in m) × AllReferring m }
    ensures { motions_in result ≡ merged (motions_in m) }
{
    let p = m[0];
    let q = m[1];
    let s = m[2];
    let t = m[3];
    let f = sources_of(p.r0, q.r0, s.r0, t.r0);
    let g = sources_of(p.r1, q.r1, s.r1, t.r1);
    let a = joined(f.reference, g.reference, m[f.a], m[g.a]);
    let b = joined(f.reference, g.reference, m[f.b], m[g.b]);
    let c = joined(f.reference, g.reference, m[f.c], m[g.c]);
    let d = joined(f.reference, g.reference, m[f.d], m[g.d]);
    [a, b, c, d]
}
