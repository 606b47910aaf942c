// The detail of a macroblock (document 02, E7): which of its quadrants read base quadrants that have detail. By the block map alone, before any filling.
#![tactic(auto)]

ghost use Rattle.std.specs.Prelude.{◌*◌, ◌+◌, ◌/◌, ◌<◌, ◌≤◌, nat_abs, map, get_or, ◌≡◌};
ghost use Rattle.definitions.specs.Record.{detail_of};
ghost use Rattle.details.specs.Bits.{InOne, detail_by, details_by, four_masked, halves_of, is_own, masked, masked_by};
ghost use Rattle.gather.specs.Reads.{ReadableAt, Rising, record_read};

use gather::{Reading, address_of};
use records::read::detail_at;
use word::Word;

// ---- The bits that are read
// Those of the macroblock that a block with coordinates x and y reads.
fn reads_detail<W: Word>(base: &[W], width: usize, x: u16, y: u16) -> u32
    requires { ReadableAt W.LIMIT width (map W.value base.now) x y × (width ≤ 256) }
    ensures { (result ≡ nat_abs (detail_of (record_read width (map W.value base.now) x y))) × (result < 16) }
{
    detail_at(base, address_of(width, x, y)) as u32
}

// Those of the macroblocks that the corner blocks read, four bits each: the first, the one to its right, the one below and the diagonal one.
fn details_of<W: Word>(r: &Reading<W>) -> u32
    ensures { result ≡ details_by r.now.width r.now.across r.now.down (map W.value r.now.base.now) }
{
    let left = r.across[0];
    let right = r.across[3];
    let upper = r.down[0];
    let lower = r.down[3];
    let a = reads_detail(r.base, r.width, left, upper);
    let b = reads_detail(r.base, r.width, right, upper);
    let c = reads_detail(r.base, r.width, left, lower);
    let d = reads_detail(r.base, r.width, right, lower);
    a + 16 * b + 256 * c + 4096 * d
}

// ---- Which bits an axis reads
// What block k from the first macroblock on adds to the set of bits: the half of the macroblock in which it lies, or of the next one.
const HALF: [u8; 8] = [1, 1, 2, 2, 16, 16, 32, 32];

// The sets of the first two blocks along an axis and of the last two, as columns.
pub fn halves_of(x: [u32; 4]) -> [u8; 2]
    requires { Rising x }
    ensures { result ≡ halves_of x }
{
    let first = x[0] / 4 * 4;
    let a = (x[0] - first) as usize;
    let b = (x[1] - first) as usize;
    let c = (x[2] - first) as usize;
    let d = (x[3] - first) as usize;
    [HALF[a] | HALF[b], HALF[c] | HALF[d]]
}

// A set as rows: bit k is at 2k.
const AS_ROWS: [u16; 64] = [
    0, 1, 4, 5, 16, 17, 20, 21, 64, 65, 68, 69, 80, 81, 84, 85, 256, 257, 260, 261, 272, 273, 276,
    277, 320, 321, 324, 325, 336, 337, 340, 341, 1024, 1025, 1028, 1029, 1040, 1041, 1044, 1045,
    1088, 1089, 1092, 1093, 1104, 1105, 1108, 1109, 1280, 1281, 1284, 1285, 1296, 1297, 1300, 1301,
    1344, 1345, 1348, 1349, 1360, 1361, 1364, 1365,
];

// ---- A quadrant's bit, and the four
// The bits at these columns and rows are not all 0.
fn any(bits: u32, columns: u32, rows: u32) -> u32
    requires { (columns < 64) × (rows < 2048) }
    ensures { (result ≡ masked bits (columns * rows)) × (result ≤ 1) }
{
    (bits & (columns * rows) != 0) as u32
}

fn four_by(bits: u32, h: [u8; 2], upper: u32, lower: u32) -> u8
    requires { (get_or h 0 0 < 64) × (get_or h 1 0 < 64) × (upper < 2048) × (lower < 2048) }
    ensures { (result ≡ masked_by bits h upper lower) × (result < 16) }
{
    let left = h[0] as u32;
    let right = h[1] as u32;
    let a = any(bits, left, upper);
    let b = any(bits, right, upper);
    let c = any(bits, left, lower);
    let d = any(bits, right, lower);
    (a + 2 * b + 4 * c + 8 * d) as u8
}

pub fn detail_by(bits: u32, h: [u8; 2], v: [u8; 2]) -> u8
    requires { (get_or h 0 0 < 64) × (get_or h 1 0 < 64) × (get_or v 0 0 < 64) × (get_or v 1 0 < 64) }
    ensures { (result ≡ four_masked bits h v) × (result < 16) }
{
    let upper = AS_ROWS[v[0] as usize] as u32;
    let lower = AS_ROWS[v[1] as usize] as u32;
    four_by(bits, h, upper, lower)
}

// ---- The detail of a macroblock (h and v are the halves of the coordinates of what is read, made once a column or row: a type that says so would hold the coordinates again)
// Where several macroblocks are read: those of the corners are all (`detail-corners`).
pub fn detail_of_more<W: Word>(r: &Reading<W>, h: [u8; 2], v: [u8; 2]) -> u8
    requires { Rising r.now.across × Rising r.now.down × (h ≡ halves_of r.now.across) × (v ≡ halves_of r.now.down) }
    ensures { (result ≡ detail_by r.now.width r.now.across r.now.down (map W.value r.now.base.now)) × (result < 16) }
{
    let bits = details_of(r);
    detail_by(bits, h, v)
}

// The first two blocks lie in the first half of a macroblock, the last two in the second.
fn is_own(h: [u8; 2]) -> bool
    ensures { result ≡ is_own h }
{
    (h[0] == 1) & (h[1] == 2)
}

// What `detail_by` gives, of sets of two bits, as they are where one macroblock is read: as rows bit 1 is at 2, without a table.
fn detail_in(bits: u32, h: [u8; 2], v: [u8; 2]) -> u8
    requires { (get_or h 0 0 < 4) × (get_or h 1 0 < 4) × (get_or v 0 0 < 4) × (get_or v 1 0 < 4) }
    ensures { (result ≡ four_masked bits h v) × (result < 16) }
{
    let above = v[0] as u32;
    let below = v[1] as u32;
    let upper = above + above / 2 * 2;
    let lower = below + below / 2 * 2;
    four_by(bits, h, upper, lower)
}

// Where one is read, its bits are all that matter (`detail-one`), and where each quadrant reads the one in its own place, they are the answer (`detail-own`).
pub fn detail_of_one<W: Word>(r: &Reading<W>, h: [u8; 2], v: [u8; 2]) -> u8
    requires { Rising r.now.across × Rising r.now.down × InOne 4 r.now.across × InOne 4 r.now.down × (h ≡ halves_of r.now.across) × (v ≡ halves_of r.now.down) }
    ensures { (result ≡ detail_by r.now.width r.now.across r.now.down (map W.value r.now.base.now)) × (result < 16) }
{
    let bits = reads_detail(r.base, r.width, r.across[0], r.down[0]);
    if is_own(h) & is_own(v) {
        return bits as u8;
    }
    detail_in(bits, h, v)
}

// Where one quadrant of one is read, all four bits are its bit (`detail-quarter`).
pub fn detail_of_quarter<W: Word>(r: &Reading<W>) -> u8
    requires { Rising r.now.across × Rising r.now.down × InOne 2 r.now.across × InOne 2 r.now.down }
    ensures { (result ≡ detail_by r.now.width r.now.across r.now.down (map W.value r.now.base.now)) × (result < 16) }
{
    let x = r.across[0];
    let y = r.down[0];
    let bits = reads_detail(r.base, r.width, x, y);
    (15 * ((bits >> (2 * (y % 4 / 2) + x % 4 / 2)) & 1)) as u8
}
