// The picture call of document 01, on records of 16-bit words, and on those of 32-bit words (document 02, E12): all base records are checked, then every macroblock is
// made in raster order.
#![tactic(auto)]

ghost use Rattle.std.specs.Prelude.{◌*◌, ◌+◌, ◌<◌, map, length, ◌≡◌};
ghost use Rattle.definitions.specs.Calls.{counts_of, made_at, picture_call};
ghost use Rattle.definitions.specs.Record.{record_words};
ghost use Rattle.definitions.specs.Basics.{for_each, up_to};
ghost use Rattle.definitions.specs.Geometry.{full_size, macroblocks};
ghost use Rattle.definitions.specs.Raster.{full_count};
ghost use Rattle.picture.specs.Promised.{PicturePromised, SinglyCounted};
ghost use Rattle.picture.specs.Reads.{AxisReads};

use bases::{Base, Formed};
use common::counts::{NO_COUNTS, count_sort};
use common::refusals;
use common::refusals::unless;
use definitions::{Counts, Numbers, PictureReply, RECORD_WORDS};
use geometry::tests::output_right;
use geometry::{CheckedAxis, Geometry};
use macroblock::{AxisRead, axis_read, fixed_of, make, read_nowhere};
use word::Word;

// ---- The axes
// The horizontal axis at each column of the picture; 256 is the most. It is read into a table that is lent: of one that is handed back by value the compiler keeps
// copies of 3 KB on the stack.
pub fn read_columns(a: CheckedAxis, reads: &mut [AxisRead])
    requires { AxisReads a.axis 0 reads.old }
    ensures { AxisReads a.axis (macroblocks (full_size a.axis)) reads.new }
{
    let width = a.axis.full.0 / 16;
    for x in 0..width {
        reads[x as usize] = axis_read(a, x);
    }
}

// Those of a geometry.
fn read_across(g: Geometry, reads: &mut [AxisRead])
    requires { AxisReads g.axes.horizontal 0 reads.old }
    ensures { AxisReads g.axes.horizontal (macroblocks (full_size g.axes.horizontal)) reads.new }
{
    let across = g.horizontal();
    read_columns(across, reads);
}

// ---- The picture
// Every macroblock, in raster order.
fn fill<W: Word>(base: Formed<W>, out: &mut [W]) -> Counts
    requires { length out.old ≡ record_words * full_count base.geometry.axes }
    ensures counts { result ≡ counts_of (up_to (full_count base.entry.geometry.axes) (made_at base.entry.geometry.axes (map W.value base.entry.words.now))) }
    ensures words { map W.value out.new ≡ for_each (up_to (full_count base.entry.geometry.axes) (made_at base.entry.geometry.axes (map W.value base.entry.words.now))) (λ m. m.written) }
{
    let axes = base.geometry.axes();
    let fixed = fixed_of(base.geometry);
    let width = axes.horizontal.full.0 / 16;
    let height = axes.vertical.full.0 / 16;
    let mut columns = [read_nowhere(); 256];
    read_across(base.geometry, &mut columns);
    let mut counts = NO_COUNTS;
    for row in 0..height {
        let v = axis_read(base.geometry.vertical(), row);
        for column in 0..width {
            let from = RECORD_WORDS * (row * width + column) as usize;
            let to = from + RECORD_WORDS;
            let h = columns[column as usize];
            let sort = make(base.words, fixed, h, v, &mut out[from..to]);
            counts = count_sort(counts, sort);
        }
    }
    counts
}

// The picture call: geometry, base, and the words of the whole picture to write.
pub fn upsample_picture<W: Word>(n: Numbers, base: &[W], out: &mut [W]) -> PictureReply
    ensures reply { result ≡ (picture_call W.LIMIT n (map W.value base.now) (map W.value out.old)).reply }
    ensures words { map W.value out.new ≡ (picture_call W.LIMIT n (map W.value base.now) (map W.value out.old)).words }
    ensures demand3 { PicturePromised W.LIMIT n (map W.value base.now) (map W.value out.old) result (map W.value out.new) }
    ensures singly { SinglyCounted W.LIMIT n (map W.value base.now) result (map W.value out.new) }
{
    let geometry = Geometry::new(n)?;
    let base = Base::new(geometry, base)?;
    unless(
        output_right(geometry.full_count(), out.len()),
        refusals::OUTPUT_LENGTH,
    )?;
    Ok(fill(base.judged()?, out))
}
