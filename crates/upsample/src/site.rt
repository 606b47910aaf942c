// A macroblock of the picture before a word of the base is read: refusals 1 to 7, and where the records stand that the one-macroblock call checks.
ghost use Rattle.std.specs.Prelude.{◌*◌, ◌<◌, ◌≤◌, ℤ, length, List, ◌≡◌, IfErr, IfOk, Err, Ok};
ghost use Rattle.upsample.specs.Sited.{placed, placing_in, placing_of, run_of, site_of};

use crate::place::Place;
use common::refusals;
use common::refusals::unless;
use definitions::{Numbers, Refusal};
use geometry::Geometry;
use geometry::raster::address_of;
use geometry::tests::output_right;
use macroblock::{AxisRead, Fixed, axis_read, fixed_of, is_two};

// ---- Refusals 1 to 7
// The geometry is accepted: refusals 5 to 7, for a base of so many words and so many words to write.
fn place_in(g: Geometry, words: usize, column: i32, row: i32, lent: usize) -> Result<Place, Refusal>
    ensures placed { (base out : List ℤ) → length base ≡ words → length out ≡ lent → IfOk result (λ p. placing_in g.axes base column row out ≡ Ok (placed p)) }
    ensures refused { (base out : List ℤ) → length base ≡ words → length out ≡ lent → IfErr result (λ r. placing_in g.axes base column row out ≡ Err r) }
{
    unless(g.base_right(words), refusals::BASE_LENGTH)?;
    unless(output_right(1, lent), refusals::OUTPUT_LENGTH)?;
    unless(g.position_right(column, row), refusals::POSITION)?;
    Ok(Place {
        geometry: g,
        column: column as u32,
        row: row as u32,
    })
}

// Refusals 1 to 7: such a macroblock, or the first of them.
pub fn place_of(
    n: Numbers,
    words: usize,
    column: i32,
    row: i32,
    lent: usize,
) -> Result<Place, Refusal>
    ensures placed { (base out : List ℤ) → length base ≡ words → length out ≡ lent → IfOk result (λ p. placing_of n base column row out ≡ Ok (placed p)) }
    ensures refused { (base out : List ℤ) → length base ≡ words → length out ≡ lent → IfErr result (λ r. placing_of n base column row out ≡ Err r) }
{
    place_in(Geometry::new(n)?, words, column, row, lent)
}

// ---- The records that a macroblock reads
// Records next to each other in the base: from .. to - 1.
#[derive(Clone, Copy)]
pub struct Run {
    pub from: usize,
    pub to: usize,
}

// What is fixed for the picture, the two axes at the macroblock, and the records that it reads: those of an upper row and of a lower one.
#[derive(Clone, Copy)]
pub struct Site {
    pub fixed: Fixed,
    pub h: AxisRead,
    pub v: AxisRead,
    pub upper: Run,
    pub lower: Run,
}

// Those of a row, if it is read: one column, or two next to each other; else none, an empty run, which is checked as any other (no Option; and `read` is a test, no switch for a closure).
fn run_of(width: usize, h: AxisRead, row: u32, read: bool) -> Run
    requires { width ≤ 256 }
    ensures { result ≡ run_of width h row read }
{
    if !read {
        return Run { from: 0, to: 0 };
    }
    let column = h.reads[0] as u32 / 4;
    let from = address_of(width, column as usize, row as usize);
    if is_two(h) {
        return Run { from, to: from + 2 };
    }
    Run { from, to: from + 1 }
}

// The site of a macroblock of the picture.
pub fn site_of(p: Place) -> Site
    ensures { result ≡ site_of (placed p) }
{
    let fixed = fixed_of(p.geometry);
    let h = axis_read(p.geometry.horizontal(), p.column);
    let v = axis_read(p.geometry.vertical(), p.row);
    let inside = h.inside & v.inside;
    let first = v.reads[0] as u32 / 4;
    let upper = run_of(fixed.width, h, first, inside);
    let lower = run_of(fixed.width, h, first + 1, inside & is_two(v));
    Site {
        fixed,
        h,
        v,
        upper,
        lower,
    }
}
