// What is made of one macroblock, on a geometry and records that were checked, of words of either width (document 02, E12): the calls share it.
// As document 01 has it: in or out of the window; inside, the detail (document 02's E7; `detail_within`, `detail_of_more`), the intra set and its count of nine
// (`corners_of`, `set_of`, `mostly_intra`), then steps 1 to 3 of "Inheriting" on motions by value (`fill`, `merge`, `copy`), and steps 4 and 5 as the record is written (`write_made`).
// Where something goes round a step, its comment names the law that allows it.
#![tactic(auto)]

ghost use Rattle.std.specs.Prelude.{◌<◌, ◌≤◌, map, length, ◌&&◌, true, ◌≡◌};
ghost use Rattle.definitions.specs.Inheriting.{filled, merged, resolved};
ghost use Rattle.definitions.specs.Record.{record_words, rule7, sub_split_of};
ghost use Rattle.details.specs.Bits.{detail_by, halves_of};
ghost use Rattle.gather.specs.Reads.{Rising, gathered_by, quadrant_from, set_by};
ghost use Rattle.macroblock.specs.Made.{Makeable, SmallRising, answer_by, answer_said, basis_with, fixed_of, fixed_with, inherited_inside, nowhere, one_part, origin_by, read_in, read_of, said_by, sort_by, sort_inside, split_in, two_read, within, written_by, written_inside};
ghost use Rattle.macroblock.specs.Quadrants.{Alike, Mergeable, plain_at};
ghost use Rattle.motion.specs.ByValue.{motions_in, quadrants_in};
ghost use Rattle.motion.specs.Scales.{AcceptedScales};

use common::counts::Sort;
use definitions::{Answer, AxisStep, Basis, EnhancementSample, Origin, Split, SubSplit, SubSplits};
use details::{detail_of_more, detail_of_one, detail_of_quarter, halves_of};
use gather::{
    Reading, Spot, across_of, block_read, corners_of, down_of, quadrant_read, reads_intra,
    reads_single, reads_whole, set_of,
};
use geometry::{CheckedAxis, Geometry, axis_step, class_of, is_inside};
use inherit::{clear_of, copy, mostly_intra};
use motion::{BlockMotion, Scales};
use quadrant::{fill, merge};
use records::layout::{DETAIL, INTRA, OUTSIDE, SUB_TYPES, TYPE, WHOLE};
use records::write::{write_one, write_unused};
use word::{Word, word_at};
use writing::{scaled, write_made};

// ---- What is fixed for a picture
// The base's width in macroblocks, and the scales of both axes.
#[derive(Clone, Copy)]
pub struct Fixed {
    pub width: usize,
    pub scales: Scales,
}

pub fn fixed_of(g: Geometry) -> Fixed
    ensures { result ≡ fixed_of g.axes }
{
    Fixed {
        width: g.base_width(),
        scales: motion::scales_of(g.axes()),
    }
}

// ---- An axis at a macroblock
// Whether it is inside there, and then what of its step the making asks for.
// Twelve bytes, since a picture keeps one for each column. As an Option, in place of the flag, it has fourteen: 512 more of the stack.
#[derive(Clone, Copy)]
pub struct AxisRead {
    pub reads: [u16; 4],
    pub halves: [u8; 2],
    pub falls: u8,
    pub inside: bool,
}

// An axis inside, in sixteen bits. (No From: it asks that the numbers are small.)
fn read_in(s: AxisStep) -> AxisRead
    requires { SmallRising s }
    ensures { result ≡ read_in s }
{
    AxisRead {
        reads: [
            s.reads[0] as u16,
            s.reads[1] as u16,
            s.reads[2] as u16,
            s.reads[3] as u16,
        ],
        halves: halves_of(s.reads),
        falls: s.falls as u8,
        inside: true,
    }
}

// An axis outside: 65,535 is no coordinate. (The answer outside holds none; why not 0: docs/DECISIONS.md.)
pub fn read_nowhere() -> AxisRead
    ensures { result ≡ nowhere }
{
    AxisRead {
        reads: [65535; 4],
        halves: [0; 2],
        falls: 0,
        inside: false,
    }
}

// Column or row x of a picture.
pub fn axis_read(a: CheckedAxis, x: u32) -> AxisRead
    requires { x < 256 }
    ensures { result ≡ read_of a.axis x }
{
    let at = a.at(EnhancementSample(16 * x));
    if is_inside(at) {
        return read_in(axis_step(at));
    }
    read_nowhere()
}

// ---- In or out of the window (what `Makeable` asks was tried as a ghost field: it holds a number, and such a field takes a proposition alone; h and v are the paper's two axes)
pub fn make<W: Word>(base: &[W], f: Fixed, h: AxisRead, v: AxisRead, out: &mut [W]) -> Sort
    requires { Makeable W.LIMIT f h v (map W.value base.now) × (length out.old ≡ record_words) }
    ensures sort { result ≡ sort_by f h v (map W.value base.now) }
    ensures written { map W.value out.new ≡ written_by f h v (map W.value base.now) }
{
    let inside = h.inside & v.inside;
    if inside {
        let across = h.reads;
        let down = v.reads;
        let r = Reading {
            base,
            width: f.width,
            across,
            down,
        };
        let columns = h.halves;
        let rows = v.halves;
        if is_one(across) & is_one(down) {
            let detail = detail_within(&r, columns, rows);
            return make_of_one(&r, f.scales, detail, out);
        }
        let detail = detail_of_more(&r, columns, rows);
        return make_of_more(&r, f.scales, detail, out);
    }
    write_unused(out, OUTSIDE, 0);
    Sort::Outside
}

// ---- Inside: the intra set, and its count
// All four coordinates lie in one column (row): the first and the last do, and coordinates rise (`one-part`). (A constant divides without an instruction more; a parameter for 4 and 2 is no plainer.)
fn is_one(reads: [u16; 4]) -> bool
    ensures { result ≡ one_part 4 reads }
{
    reads[3] / 4 == reads[0] / 4
}

// The same of one half of a column (row).
fn is_half(reads: [u16; 4]) -> bool
    ensures { result ≡ one_part 2 reads }
{
    reads[3] / 2 == reads[0] / 2
}

// The detail where one macroblock is read: of one of its quadrants, or of more.
fn detail_within<W: Word>(r: &Reading<W>, columns: [u8; 2], rows: [u8; 2]) -> u8
    requires { Rising r.now.across × Rising r.now.down × ((one_part 4 r.now.across && one_part 4 r.now.down) ≡ true) × (columns ≡ halves_of r.now.across) × (rows ≡ halves_of r.now.down) }
    ensures { (result ≡ detail_by r.now.width r.now.across r.now.down (map W.value r.now.base.now)) × (result < 16) }
{
    if is_half(r.across) & is_half(r.down) {
        return detail_of_quarter(r);
    }
    detail_of_one(r, columns, rows)
}

// Where one macroblock is read. If it is intra, all blocks are (`set_all`), else the set is empty (`set-none`). If it is 16×16, or one quadrant of it is read that is not
// divided, all blocks have one motion (`one-read`), which no step but the fourth changes, and the split is 16×16 (`whole-written`).
fn make_of_one<W: Word>(r: &Reading<W>, scales: Scales, detail: u8, out: &mut [W]) -> Sort
    requires { AcceptedScales scales × Rising r.now.across × Rising r.now.down × ((one_part 4 r.now.across && one_part 4 r.now.down) ≡ true) × (detail ≡ detail_by r.now.width r.now.across r.now.down (map W.value r.now.base.now)) × (length out.old ≡ record_words) }
    ensures sort { result ≡ sort_inside (fixed_with r.now.width scales) r.now.across r.now.down (map W.value r.now.base.now) }
    ensures written { map W.value out.new ≡ written_inside (fixed_with r.now.width scales) r.now.across r.now.down (map W.value r.now.base.now) }
{
    let x = r.across[0];
    let y = r.down[0];
    if reads_intra(r.base, r.width, x, y) {
        write_unused(out, INTRA, detail as i16);
        return Sort::Intra;
    }
    let quarter = is_half(r.across) & is_half(r.down);
    if reads_whole(r.base, r.width, x, y) | (quarter & reads_single(r.base, r.width, x, y)) {
        write_one(
            out,
            WHOLE,
            scaled::<W>(scales, block_read(r.base, r.width, x, y)),
            detail as i16,
        );
        return Sort::Inherited;
    }
    make_inherited(*r, scales, 0, detail, out);
    Sort::Inherited
}

// Where more macroblocks are read: those of the corners are all (`set-corners`).
fn make_of_more<W: Word>(r: &Reading<W>, scales: Scales, detail: u8, out: &mut [W]) -> Sort
    requires { AcceptedScales scales × Rising r.now.across × Rising r.now.down × (detail ≡ detail_by r.now.width r.now.across r.now.down (map W.value r.now.base.now)) × (length out.old ≡ record_words) }
    ensures sort { result ≡ sort_inside (fixed_with r.now.width scales) r.now.across r.now.down (map W.value r.now.base.now) }
    ensures written { map W.value out.new ≡ written_inside (fixed_with r.now.width scales) r.now.across r.now.down (map W.value r.now.base.now) }
{
    let c = corners_of(r);
    if c.first | c.right | c.below | c.diagonal {
        let set = set_of(c, r.across, r.down);
        if mostly_intra(set) {
            write_unused(out, INTRA, detail as i16);
            return Sort::Intra;
        }
        make_inherited(*r, scales, set, detail, out);
        return Sort::Inherited;
    }
    // None is intra: the set is empty (`no-corner`).
    make_inherited(*r, scales, 0, detail, out);
    Sort::Inherited
}

// ---- Steps 1 to 5
// Made by value, and scaled and split as it is written.
// What is read comes by value: lent to this call, it would stand in memory from the window on (2 % more instructions where one quadrant is read).
fn make_inherited<W: Word>(r: Reading<W>, scales: Scales, set: u16, detail: u8, out: &mut [W])
    requires { AcceptedScales scales × (set ≡ set_by r.width r.across r.down (map W.value r.base.now)) × (detail ≡ detail_by r.width r.across r.down (map W.value r.base.now)) × (length out.old ≡ record_words) }
    ensures { map W.value out.new ≡ inherited_inside (fixed_with r.entry.width scales) r.entry.across r.entry.down (map W.value r.entry.base.now) }
{
    write_made(out, scales, motions_made(&r, set), detail);
}

// Steps 1 to 3. With an empty set steps 1 and 3 have nothing to do (`merged-only`).
fn motions_made<W: Word>(r: &Reading<W>, set: u16) -> [[BlockMotion; 4]; 4]
    requires { set ≡ set_by r.now.width r.now.across r.now.down (map W.value r.now.base.now) }
    ensures { quadrants_in result ≡ resolved set (gathered_by r.now.width r.now.across r.now.down (map W.value r.now.base.now)) }
{
    let x0 = across_of(r.across[0]);
    let x1 = across_of(r.across[1]);
    let x2 = across_of(r.across[2]);
    let x3 = across_of(r.across[3]);
    let y0 = down_of(r.width, r.down[0]);
    let y1 = down_of(r.width, r.down[1]);
    let y2 = down_of(r.width, r.down[2]);
    let y3 = down_of(r.width, r.down[3]);
    if set == 0 {
        let a = quadrant_merged(r.base, x0, x1, y0, y1);
        let b = quadrant_merged(r.base, x2, x3, y0, y1);
        let c = quadrant_merged(r.base, x0, x1, y2, y3);
        let d = quadrant_merged(r.base, x2, x3, y2, y3);
        return [a, b, c, d];
    }
    let a = quadrant_made(r.base, x0, x1, y0, y1, clear_of(set, 0));
    let b = quadrant_made(r.base, x2, x3, y0, y1, clear_of(set, 1));
    let c = quadrant_made(r.base, x0, x1, y2, y3, clear_of(set, 2));
    let d = quadrant_made(r.base, x2, x3, y2, y3, clear_of(set, 3));
    copy(set, [a, b, c, d])
}

// The four blocks of a quadrant read one quadrant of a base macroblock: their references stand in one place.
pub fn is_plain(x0: Spot, x1: Spot, y0: Spot, y1: Spot) -> bool
    ensures { result ≡ plain_at x0 x1 y0 y1 }
{
    (x0.references == x1.references) & (y0.references == y1.references)
}

// Step 2 of a quadrant, at two columns and two rows. A plain one has one reference in each list: nothing is to merge (`settled-merged`), and it is read as it stands.
fn quadrant_merged<W: Word>(base: &[W], x0: Spot, x1: Spot, y0: Spot, y1: Spot) -> [BlockMotion; 4]
    requires { Mergeable (map W.value base.now) x0 x1 y0 y1 }
    ensures { motions_in result ≡ merged (motions_in (quadrant_from (map W.value base.now) x0 x1 y0 y1)) }
{
    if is_plain(x0, x1, y0, y1) {
        return quadrant_read(base, x0, x1, y0, y1);
    }
    merge(quadrant_read(base, x0, x1, y0, y1))
}

// Steps 1 and 2 of a quadrant. A plain one's blocks are all intra or none is: nothing is to fill (`filled-alike`) or to merge (`settled-merged`). Where no block is intra,
// nothing is to fill (`filled-leaves`). A quadrant all intra goes through too: step 3 writes it over.
fn quadrant_made<W: Word>(
    base: &[W],
    x0: Spot,
    x1: Spot,
    y0: Spot,
    y1: Spot,
    clear: [bool; 4],
) -> [BlockMotion; 4]
    requires { Mergeable (map W.value base.now) x0 x1 y0 y1 × ((plain_at x0 x1 y0 y1 ≡ true → Alike clear)) }
    ensures { motions_in result ≡ merged (filled clear (motions_in (quadrant_from (map W.value base.now) x0 x1 y0 y1))) }
{
    if is_plain(x0, x1, y0, y1) {
        return quadrant_read(base, x0, x1, y0, y1);
    }
    if clear[0] & clear[1] & clear[2] & clear[3] {
        return merge(quadrant_read(base, x0, x1, y0, y1));
    }
    merge(fill(clear, quadrant_read(base, x0, x1, y0, y1)))
}

// ---- The answer
// Inside, two columns (rows) are read: not all four blocks fall in the first (`two-by-falls`).
pub fn is_two(r: AxisRead) -> bool
    ensures { result ≡ two_read r }
{
    r.falls != 4
}

fn origin_of(h: AxisRead, v: AxisRead) -> Origin
    ensures { result ≡ origin_by h v }
{
    Origin {
        class: class_of(is_two(h), is_two(v)),
        column: h.reads[0] as u32 / 4,
        row: v.reads[0] as u32 / 4,
    }
}

// Each count is a product: how many of the four columns of blocks fall in its column, times how many of the four rows fall in its row (`reading-product`).
fn basis_of(h: AxisRead, v: AxisRead, detail: u8) -> Basis
    requires { (h.falls ≤ 4) × (v.falls ≤ 4) }
    ensures { result ≡ basis_with h v detail }
{
    let origin = origin_of(h, v);
    let columns = h.falls;
    let rows = v.falls;
    Basis {
        origin,
        detail,
        first: columns * rows,
        right: (4 - columns) * rows,
        below: columns * (4 - rows),
        diagonal: (4 - columns) * (4 - rows),
    }
}

// (No TryFrom: as in the definition, any word but 0, 1 and 2 is 4×4.)
fn sub_split_of(word: i32) -> SubSplit
    ensures { result ≡ sub_split_of word }
{
    match word {
        0 => SubSplit::S8x8,
        1 => SubSplit::S8x4,
        2 => SubSplit::S4x8,
        _ => SubSplit::S4x4,
    }
}

// What a written record says of its answer: the type, the sub-types and the detail, by value. They are numbers, as words are: only where it inherits a split is told of them.
#[derive(Clone, Copy)]
pub struct Said {
    pub kind: i32,
    pub a: i32,
    pub b: i32,
    pub c: i32,
    pub d: i32,
    pub detail: u8,
}

// The split that it says. (No From: of a record that inherits alone.)
fn split_of(s: Said) -> Split
    ensures { result ≡ split_in s }
{
    match s.kind {
        1 => Split::S16x16,
        2 => Split::S16x8,
        3 => Split::S8x16,
        _ => {
            let a = sub_split_of(s.a);
            let b = sub_split_of(s.b);
            let c = sub_split_of(s.c);
            let d = sub_split_of(s.d);
            Split::S8x8(SubSplits { a, b, c, d })
        }
    }
}

// The answer of a sort, by what its record says.
pub fn answer_of(sort: Sort, h: AxisRead, v: AxisRead, s: Said) -> Answer
    requires { within sort ≡ true → (h.falls ≤ 4) × (v.falls ≤ 4) }
    ensures { result ≡ answer_said sort h v s }
{
    match sort {
        Sort::Outside => Answer::Outside,
        Sort::Intra => {
            let basis = basis_of(h, v, s.detail);
            Answer::Intra(basis)
        }
        Sort::Inherited => {
            let basis = basis_of(h, v, s.detail);
            let split = split_of(s);
            Answer::Inherited(basis, split)
        }
    }
}

// What a written record says. (No From: it asks that the record keeps rule 7.)
fn said_in<W: Word>(out: &[W]) -> Said
    requires { (length out.now ≡ record_words) × (rule7 (map W.value out.now) ≡ true) }
    ensures { result ≡ said_by (map W.value out.now) }
{
    Said {
        kind: word_at(out, TYPE),
        a: word_at(out, SUB_TYPES),
        b: word_at(out, SUB_TYPES + 1),
        c: word_at(out, SUB_TYPES + 2),
        d: word_at(out, SUB_TYPES + 3),
        detail: word_at(out, DETAIL) as u8,
    }
}

pub fn answer<W: Word>(base: &[W], f: Fixed, h: AxisRead, v: AxisRead, out: &mut [W]) -> Answer
    requires { Makeable W.LIMIT f h v (map W.value base.now) × (length out.old ≡ record_words) }
    ensures answer { result ≡ answer_by f h v (map W.value base.now) }
    ensures written { map W.value out.new ≡ written_by f h v (map W.value base.now) }
{
    let sort = make(base, f, h, v, out);
    let s = said_in(out);
    answer_of(sort, h, v, s)
}
