// An axis, for one macroblock: the steps of 003 (JVT-P019r1), 3.1.2, 3.2.1 and 3.2.2, in the order of its text, a function each. 003 writes them out for X
// and for Y; here both axes use the same functions. Its names, document 01's letters for them, and the step that gives each:
//
//     XP, scaled_base_X               P, o     (given)
//     BasePicWidth, ScaledBaseWidth   B, S     (given)
//     XP0 + 8; XC, XC >> 3            c; Z, k  1. centre
//     dX1, dX2                        d1, d2   2. distances
//     the same, rounded               D1, D2   3. rounded
//     MbBorderX, B8x8BorderX          M, N     4. borders_by_parity
//     XB / 16; | MbBorderX | >= 8     F; one   5. columns_read: F, one or two; MbClass of both axes: class_of
//
// From step 3 on 003 writes Z for X and Y (dZi, ZC, MbBorderZ). Here it is quoted for X, because Z is document 01's letter for XC.
ghost use Rattle.std.specs.Prelude.{ℕ, ◌*◌, ◌+◌, ◌-◌, ◌/◌, ◌<◌, ◌≤◌, leb, nat_abs, ◌&&◌, not, true, ◌≡◌};
ghost use Rattle.definitions.specs.Accepted.{Inside, Sized};
ghost use Rattle.definitions.specs.BlockMap.{step_of};
ghost use Rattle.definitions.specs.Geometry.{base_size, c_of, class_of, d1_of, d2_of, even, f_of, inside_axis, k_of, m_of, n_of, p_of, rounded_of, scaled_size, two_of, z_of};
ghost use Rattle.definitions.specs.Basics.{minus, pick};
ghost use Rattle.geometry.specs.Step.{RoundedAt};
ghost use Rattle.std.proofs.Math.IntN.{sub_ℕ};
ghost use Rattle.std.specs.Int.Signed.{lt_z};

use crate::AxisAt;
use crate::map::{falls_in, reads};
use crate::sign::{magnitude, with_sign_of};
use definitions::{AxisStep, BaseSample, Class, EnhancementOffset, EnhancementSample};

// 003, 2: the macroblock is fully inside the cropping window. o ≤ P and P + 16 ≤ o + S.
#[tactic(auto, unfolding(definitions::specs::Geometry::inside_axis))]
pub fn is_inside(at: AxisAt) -> bool
    ensures { result ≡ inside_axis at.axis at.start.0 }
{
    let o = at.axis.offset.0;
    let x = at.start.0 as i32;
    (o <= x) & (x + 16 <= o + at.axis.scaled.0 as i32)
}

// All that the axis gives for the macroblock at P: steps 1 to 5, then the block map (003, 3.3.2.1, Table 3), and of its four blocks how many fall in the first column (row).
pub fn axis_step(at: AxisAt) -> AxisStep
    requires { inside_axis at.axis at.start.0 ≡ true }
    ensures { result ≡ step_of at.axis at.start.0 }
{
    let mid = centre(at); // 1. XP0 + 8, XC and XC >> 3
    let unrounded = distances(at.axis.base, at.axis.scaled, mid); // 2. dX1 and dX2
    let d = rounded(unrounded); // 3. rounded to fours
    let chosen = borders_by_parity(mid.k, d); // 4. MbBorderX and B8x8BorderX
    let columns = columns_read(mid.k, chosen.border); // 5. XB / 16, one or two
    let border = chosen.border;
    let border8 = chosen.border8;
    let coordinates = reads(mid.k, border, border8, columns.first);
    AxisStep {
        k: mid.k,
        border,
        border8,
        first: columns.first,
        two: columns.two,
        reads: coordinates,
        falls: falls_in(coordinates, columns.first),
    }
}

// ---- 1. The centre (3.1.2)
// The macroblock's centre: c, which is XP0 + 8, on the high layer's scale, counted from the window's edge; Z, which is XC, in the base layer; k, which is XC >> 3.
// 003 has the formula of XC first and then that of XP0, which stands in it.
#[derive(Clone, Copy)]
struct Centred {
    c: EnhancementSample,
    z: BaseSample,
    k: u32,
}

// c, Z and k = Z / 8.
fn centre(at: AxisAt) -> Centred
    requires { inside_axis at.axis at.start.0 ≡ true }
    ensures c { result.c.0 ≡ c_of at.axis at.start.0 }
    ensures z { result.z.0 ≡ z_of (base_size at.axis) (scaled_size at.axis) (c_of at.axis at.start.0) }
    ensures k { result.k ≡ k_of (base_size at.axis) (scaled_size at.axis) (c_of at.axis at.start.0) }
{
    let c = high_layer_centre(at);
    let z = base_layer_centre(at.axis.base, at.axis.scaled, c);
    Centred { c, z, k: z.0 / 8 }
}

// XP0 + 8, with XP0 = XP − scaled_base_X, which is not below 0 inside: c = P − o + 8.
fn high_layer_centre(at: AxisAt) -> EnhancementSample
    ensures { result.0 ≡ c_of at.axis at.start.0 }
{
    EnhancementSample((at.start.0 as i32 - at.axis.offset.0).unsigned_abs() + 8)
}

// XC = ((XP0 + 8) * BasePicWidth + BasePicWidth / 2) / ScaledBaseWidth: Z = (c·B + B/2) / S.
fn base_layer_centre(b: BaseSample, s: EnhancementSample, c: EnhancementSample) -> BaseSample
    requires { Inside b.0 s.0 c.0 }
    ensures { result.0 ≡ z_of b.0 s.0 c.0 }
{
    BaseSample((c.0 * b.0 + b.0 / 2) / s.0)
}

// ---- 2. Both distances (3.1.2)
// From the centre to where the base's 8 by 8 block k starts, and to where it ends: dX1 and dX2, unrounded d1 and d2, rounded D1 and D2.
#[derive(Clone, Copy)]
struct FromCentre {
    d1: EnhancementOffset,
    d2: EnhancementOffset,
}

// dX1 = (8 * (XC >> 3) * ScaledBaseWidth + BasePicWidth / 2) / BasePicWidth - (XP0 + 8), and dX2 the same with 8 * ((XC >> 3) + 1). 003 prints
// 8 * (XC >> 3 + 1), which in C would be XC >> 4. d1 = p(k) − c and d2 = p(k+1) − c.
fn distances(b: BaseSample, s: EnhancementSample, at: Centred) -> FromCentre
    requires { Inside b.0 s.0 at.c.0 × (at.k ≡ k_of b.0 s.0 at.c.0) }
    ensures d1 { result.d1.0 ≡ d1_of b.0 s.0 at.c.0 }
    ensures d2 { result.d2.0 ≡ d2_of b.0 s.0 at.c.0 }
{
    FromCentre {
        d1: distance(grid_sample(b, s, at.k), at.c),
        d2: distance(grid_sample(b, s, at.k + 1), at.c),
    }
}

// The quotient in dX1 and dX2, with j for XC >> 3 or that + 1: where base sample 8j lies on the high layer's scale. p(j) = (8·j·S + B/2) / B.
fn grid_sample(b: BaseSample, s: EnhancementSample, j: u32) -> EnhancementSample
    requires { Sized b.0 s.0 × (j ≤ 512) }
    ensures { result.0 ≡ p_of b.0 s.0 j }
{
    EnhancementSample((8 * j * s.0 + b.0 / 2) / b.0)
}

// Less (XP0 + 8): p − c.
fn distance(p: EnhancementSample, c: EnhancementSample) -> EnhancementOffset
    requires { (p.0 < 65536) × (c.0 < 65536) }
    ensures { result.0 ≡ sub_ℕ p.0 c.0 }
{
    EnhancementOffset(p.0 as i32 - c.0 as i32)
}

// ---- 3. Their rounding to fours (3.1.2)
// dXi = sign(dXi) * ((| dXi | + 2) / 4) * 4 with i = 1, 2: D1 and D2.
fn rounded(d: FromCentre) -> FromCentre
    requires { (nat_abs d.d1.0 < 65536) × (nat_abs d.d2.0 < 65536) }
    ensures d1 { result.d1.0 ≡ rounded_of d.d1.0 }
    ensures d2 { result.d2.0 ≡ rounded_of d.d2.0 }
{
    FromCentre {
        d1: to_fours(d.d1),
        d2: to_fours(d.d2),
    }
}

// D = sign(d) · 4 · ((|d| + 2) / 4).
fn to_fours(d: EnhancementOffset) -> EnhancementOffset
    requires { nat_abs d.0 < 65536 }
    ensures { result.0 ≡ rounded_of d.0 }
{
    with_sign_of(d, 4 * ((magnitude(d) + 2) / 4))
}

// ---- 4. The choice of border (3.1.2)
// 3.1.1: MbBorderX is to the nearest base macroblock border, B8x8BorderX to the nearest base 8 by 8 block border, the one in a macroblock's middle: M and N.
#[derive(Clone, Copy)]
struct Borders {
    border: EnhancementOffset,
    border8: EnhancementOffset,
}

// If (8 * (XC >> 3)) % 16 == 0, which is k even, MbBorderX = dX1 and B8x8BorderX = dX2, otherwise MbBorderX = dX2 and B8x8BorderX = dX1.
#[tactic(auto, using(crate::proofs::Steps::border, crate::proofs::Steps::border8))]
fn borders_by_parity(k: u32, d: FromCentre) -> Borders
    ensures border { result.border.0 ≡ pick (even k) d.d1.0 d.d2.0 }
    ensures border8 { result.border8.0 ≡ pick (even k) d.d2.0 d.d1.0 }
    ensures m { (b s c : ℕ) → RoundedAt b s c k d.d1.0 d.d2.0 → result.border.0 ≡ m_of b s c }
    ensures n { (b s c : ℕ) → RoundedAt b s c k d.d1.0 d.d2.0 → result.border8.0 ≡ n_of b s c }
{
    Borders {
        border: by_parity(k, d.d1, d.d2),
        border8: by_parity(k, d.d2, d.d1),
    }
}

// The one where k is even, the other where it is odd.
#[tactic(auto, unfolding(definitions::specs::Basics::pick))]
fn by_parity(k: u32, one: EnhancementOffset, other: EnhancementOffset) -> EnhancementOffset
    ensures { result.0 ≡ pick (even k) one.0 other.0 }
{
    if k % 2 == 0 { one } else { other }
}

// ---- 5. The columns (rows) read, and the class (3.2.1, 3.2.2)
// F, and whether two are read, F and F + 1.
#[derive(Clone, Copy)]
struct Columns {
    first: u32,
    two: bool,
}

// 3.2.1: the first is XB / 16. 003 prints XB = XC - (MbBorderX > -8); document 01 reads it with the factor 8 that this lacks: F is k/2 − 1 if k is even and
// M > −8, else k/2. 3.2.2: | MbBorderX | >= 8, one; otherwise two.
#[tactic(auto, using(crate::proofs::Steps::first, crate::proofs::Steps::two))]
fn columns_read(k: u32, m: EnhancementOffset) -> Columns
    requires { (even k && lt_z (minus 8) m.0) ≡ true → 2 ≤ k }
    ensures first { result.first ≡ pick (even k && lt_z (minus 8) m.0) (k / 2 - 1) (k / 2) }
    ensures two { result.two ≡ not (leb 8 (nat_abs m.0)) }
    ensures f { (b s c : ℕ) → k ≡ k_of b s c → m.0 ≡ m_of b s c → result.first ≡ f_of b s c }
    ensures two_read { (b s c : ℕ) → m.0 ≡ m_of b s c → result.two ≡ two_of b s c }
{
    Columns {
        first: first_column(k, m),
        two: reads_two(m),
    }
}

// F, in document 01's words.
#[tactic(auto, unfolding(definitions::specs::Basics::pick))]
fn first_column(k: u32, m: EnhancementOffset) -> u32
    requires { (even k && lt_z (minus 8) m.0) ≡ true → 2 ≤ k }
    ensures { result ≡ pick (even k && lt_z (minus 8) m.0) (k / 2 - 1) (k / 2) }
{
    if (k % 2 == 0) & (m.0 > -8) {
        k / 2 - 1
    } else {
        k / 2
    }
}

// |M| ≥ 8: one column (row) is read, otherwise two.
fn reads_two(m: EnhancementOffset) -> bool
    ensures { result ≡ not (leb 8 (nat_abs m.0)) }
{
    let one = magnitude(m) >= 8;
    !one
}

// 3.2.2, MbClass. One column (| MbBorderX | >= 8): Corner with one row, Hori with two; otherwise Vert with one row, Center with two.
pub fn class_of(columns: bool, rows: bool) -> Class
    ensures { result ≡ class_of columns rows }
{
    match (columns, rows) {
        (false, false) => Class::Corner,
        (false, true) => Class::Hori,
        (true, false) => Class::Vert,
        (true, true) => Class::Center,
    }
}
