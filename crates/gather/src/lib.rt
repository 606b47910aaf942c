// Reading by the block map: the motions that the blocks of a macroblock read, and which of the macroblocks that are read are intra.
#![tactic(auto)]

ghost use Rattle.std.specs.Prelude.{ℕ, ◌<◌, ◌≤◌, pos, map, ◌≡◌, ⊤};
ghost use Rattle.definitions.specs.Basics.{eq_z, pick, set_of};
ghost use Rattle.definitions.specs.Blocks.{quadrant_of};
ghost use Rattle.definitions.specs.Record.{is_intra, sub_type_of, type_of};
ghost use Rattle.gather.specs.Reads.{PlaceIn, PlacesIn, Readable, ReadableAt, across_of, address_at, beside, block_at, block_from, corners_by, down_of, motion_read, quadrant_from, record_read, set_among};
ghost use Rattle.motion.specs.ByValue.{motion_in};

use definitions::RECORD_WORDS;
use geometry::raster;
use motion::BlockMotion;
use records::layout::{REFERENCES, VECTORS};
use records::read::{is_intra, is_single, is_whole};
use std::alloc::AllocError;
use word::{Word, word_at};

// The base macroblock of the 4 by 4 block at coordinates x and y.
pub fn address_of(width: usize, x: u16, y: u16) -> usize
    requires { width ≤ 256 }
    ensures { result ≡ address_at width x y }
{
    raster::address_of(width, (x / 4) as usize, (y / 4) as usize)
}

// ---- Motions
// What a coordinate adds to the places of a block's vectors and references in the base.
#[derive(Clone, Copy)]
pub struct Spot {
    pub vectors: usize,
    pub references: usize,
}

// A column's.
pub fn across_of(x: u16) -> Spot
    ensures { result ≡ across_of x }
{
    let from = RECORD_WORDS * (x / 4) as usize;
    Spot {
        vectors: from + VECTORS + 4 * (x % 4) as usize,
        references: from + REFERENCES + 2 * (x % 4 / 2) as usize,
    }
}

// A row's.
pub fn down_of(width: usize, y: u16) -> Spot
    requires { width ≤ 256 }
    ensures { result ≡ down_of width y }
{
    let from = RECORD_WORDS * (width * (y / 4) as usize);
    Spot {
        vectors: from + 16 * (y % 4) as usize,
        references: from + 4 * (y % 4 / 2) as usize,
    }
}

// The motion at a column and a row.
fn block_from<W: Word>(base: &[W], x: Spot, y: Spot) -> BlockMotion
    requires { PlaceIn (map W.value base.now) x y }
    ensures { result ≡ block_from (map W.value base.now) x y }
{
    let v = x.vectors + y.vectors;
    let r = x.references + y.references;
    BlockMotion {
        r0: word_at(base, r),
        r1: word_at(base, r + 1),
        x0: word_at(base, v),
        y0: word_at(base, v + 1),
        x1: word_at(base, v + 2),
        y1: word_at(base, v + 3),
    }
}

// The motion that the block with coordinates x and y reads.
pub fn block_read<W: Word>(base: &[W], width: usize, x: u16, y: u16) -> BlockMotion
    requires { ReadableAt W.LIMIT width (map W.value base.now) x y × (width ≤ 256) }
    ensures { motion_in result ≡ motion_read width (map W.value base.now) x y }
{
    block_from(base, across_of(x), down_of(width, y))
}

// The blocks of a quadrant: at two columns and two rows. (Four spots side by side: a struct of them would be made for each quadrant, and asked the same.)
pub fn quadrant_read<W: Word>(
    base: &[W],
    left: Spot,
    right: Spot,
    upper: Spot,
    lower: Spot,
) -> [BlockMotion; 4]
    requires { PlacesIn (map W.value base.now) left right upper lower }
    ensures { result ≡ quadrant_from (map W.value base.now) left right upper lower }
{
    let a = block_from(base, left, upper);
    let b = block_from(base, right, upper);
    let c = block_from(base, left, lower);
    let d = block_from(base, right, lower);
    [a, b, c, d]
}

// ---- Macroblocks (each asks for the record that one pair of coordinates names, and no value carries such a pair)
// The macroblock that a block with coordinates x and y reads is intra; is of type 1, 16×16.
pub fn reads_intra<W: Word>(base: &[W], width: usize, x: u16, y: u16) -> bool
    requires { ReadableAt W.LIMIT width (map W.value base.now) x y × (width ≤ 256) }
    ensures { result ≡ is_intra (record_read width (map W.value base.now) x y) }
{
    is_intra(base, address_of(width, x, y))
}

pub fn reads_whole<W: Word>(base: &[W], width: usize, x: u16, y: u16) -> bool
    requires { ReadableAt W.LIMIT width (map W.value base.now) x y × (width ≤ 256) }
    ensures { result ≡ eq_z (type_of (record_read width (map W.value base.now) x y)) (pos 1) }
{
    is_whole(base, address_of(width, x, y))
}

// The quadrant of that macroblock in which the block read lies is not divided.
pub fn reads_single<W: Word>(base: &[W], width: usize, x: u16, y: u16) -> bool
    requires { ReadableAt W.LIMIT width (map W.value base.now) x y × (width ≤ 256) }
    ensures { result ≡ eq_z (sub_type_of (record_read width (map W.value base.now) x y) (quadrant_of (block_at x y))) (pos 0) }
{
    let q = (2 * (y % 4 / 2) + x % 4 / 2) as usize;
    is_single(base, address_of(width, x, y), q)
}

// ---- What a macroblock inside the window reads
// (That coordinates rise is asked where it is needed: `corners_of` never asked it.)
// The base with its width in macroblocks, and the coordinates that the two axes give: the records that they name lie in the base and are well formed. It is made once for a macroblock, and lent.
pub struct Reading<'a, W: Word> {
    pub base: &'a [W],
    pub width: usize,
    pub across: [u16; 4],
    pub down: [u16; 4],
    ghost readable: { Readable W.LIMIT width across down (map W.value base.now) },
    ghost low: { width ≤ 256 },
}

// (By hand, as in `bases`.)
impl<'a, W: Word> Clone for Reading<'a, W> {
    ghost is_clone = { λ x y. y ≡ x };

    ghost is_infallible = { λ _. ⊤ };

    fn clone(&self) -> Result<Reading<'a, W>, AllocError> {
        Ok(*self)
    }
}

impl<'a, W: Word> Copy for Reading<'a, W> {}

// ---- The intra set
// Which of the macroblocks that are read are intra. What is read lies in the columns of the first and the last block, and in their rows, since coordinates rise: these are all (`set-corners`).
#[derive(Clone, Copy)]
pub struct Corners {
    pub first: bool,
    pub right: bool,
    pub below: bool,
    pub diagonal: bool,
}

pub fn corners_of<W: Word>(r: &Reading<W>) -> Corners
    ensures { result ≡ corners_by r.now.width r.now.across r.now.down (map W.value r.now.base.now) }
{
    let left = r.across[0];
    let right = r.across[3];
    let upper = r.down[0];
    let lower = r.down[3];
    Corners {
        first: reads_intra(r.base, r.width, left, upper),
        right: reads_intra(r.base, r.width, right, upper),
        below: reads_intra(r.base, r.width, left, lower),
        diagonal: reads_intra(r.base, r.width, right, lower),
    }
}

// (A function of its own, so that its bound is said once.)
fn bit_of(on: bool) -> u16
    ensures { (result ≡ pick on 1 0) × (result ≤ 1) }
{
    on as u16
}

// What holds of block i along an axis, by the macroblock of the first block and that of the last.
fn beside_of(x: [u16; 4], i: usize, near: u16, far: u16) -> u16
    requires { i < 4 }
    ensures is { result ≡ beside x i near far }
    ensures top { (t : ℕ) → near ≤ t → far ≤ t → result ≤ t }
{
    if x[i] / 4 == x[0] / 4 { near } else { far }
}

// The bits of a row of four blocks.
fn row_set(across: [u16; 4], near: bool, far: bool) -> u16
    ensures { (result ≡ set_of 4 (λ i. beside across i near far)) × (result ≤ 15) }
{
    let n = bit_of(near);
    let f = bit_of(far);
    let b = beside_of(across, 1, n, f);
    let c = beside_of(across, 2, n, f);
    let d = beside_of(across, 3, n, f);
    n + 2 * b + 4 * c + 8 * d
}

// The blocks that read intra macroblocks.
pub fn set_of(c: Corners, across: [u16; 4], down: [u16; 4]) -> u16
    ensures { result ≡ set_among c across down }
{
    let upper = row_set(across, c.first, c.right);
    let lower = row_set(across, c.below, c.diagonal);
    let i = beside_of(down, 1, upper, lower);
    let j = beside_of(down, 2, upper, lower);
    let k = beside_of(down, 3, upper, lower);
    upper + 16 * i + 256 * j + 4096 * k
}
