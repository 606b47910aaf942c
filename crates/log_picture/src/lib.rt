// The lines of a picture's log, on a base whose records are well formed.
#![tactic(auto)]

ghost use Rattle.std.specs.Prelude.{◌+◌, ◌≤◌, ◌<◌, length, [], ◌∷◌, ◌≡◌};
ghost use Rattle.definitions.specs.Answer.{answer_type};
ghost use Rattle.definitions.specs.Log.{answer_pieces, line_of, log_bytes, mb_word, picture_lines, sync_word};
ghost use Rattle.definitions.specs.Record.{narrow};
ghost use Rattle.log_lines.specs.Put.{Put};
ghost use Rattle.macroblock.specs.Made.{Makeable, answer_by, read_of};

use bases::Formed;
use common::counts::{NO_COUNTS, count};
use definitions::{Answer, Counts, RECORD_WORDS};
use log_lines::Log;
use macroblock::{AxisRead, Fixed, answer, axis_read, fixed_of};
use records::layout::answer_type;

// ---- The numbers of a line
// The pieces of an answer's split, 0 where it has none.
fn pieces_of(a: Answer) -> u32
    ensures { result ≡ answer_pieces a }
{
    match a {
        Answer::Outside => 0,
        Answer::Intra(_) => 0,
        Answer::Inherited(_, s) => split::pieces_of(s),
    }
}

// ---- The lines
// (mb column row type pieces)
fn macroblock_line(log: &mut Log, column: u32, row: u32, a: Answer)
    requires { (column < 256) × (row < 256) × (log.old.at + 18 ≤ length log.old.out.now) }
    ensures bytes { Put log.old.out.now log.old.at (line_of mb_word (column ∷ row ∷ answer_type a ∷ answer_pieces a ∷ [])) log.new.out.now log.new.at }
    ensures same { log.new.out.ghost_name ≡ log.old.out.ghost_name }
{
    let numbers = [column, row, u32::from(answer_type(a)), pieces_of(a)];
    log.line(b"mb", &numbers);
}

// (sync macroblocks inherited intra outside)
fn sync_line(log: &mut Log, total: u32, c: Counts)
    requires { (total ≤ 65536) × (c.inherited ≤ 65536) × (c.intra ≤ 65536) × (c.outside ≤ 65536) × (log.old.at + 31 ≤ length log.old.out.now) }
    ensures bytes { Put log.old.out.now log.old.at (line_of sync_word (total ∷ c.inherited ∷ c.intra ∷ c.outside ∷ [])) log.new.out.now log.new.at }
    ensures same { log.new.out.ghost_name ≡ log.old.out.ghost_name }
{
    let numbers = [total, c.inherited, c.intra, c.outside];
    log.line(b"sync", &numbers);
}

// ---- The picture
// The answer at a column, in a row whose axis is read. Its words are not logged.
fn answer_at(base: Formed<i16>, fixed: Fixed, column: u32, v: AxisRead) -> Answer
    requires { (column < 256) × Makeable narrow fixed (read_of base.geometry.axes.horizontal column) v base.words.now }
    ensures { result ≡ answer_by fixed (read_of base.entry.geometry.axes.horizontal column) v base.entry.words.now }
{
    if v.inside {
        let h = axis_read(base.geometry.horizontal(), column);
        if h.inside {
            let mut words = [0i16; RECORD_WORDS];
            return answer(base.words, fixed, h, v, &mut words);
        }
    }
    Answer::Outside
}

// A line per macroblock, in raster order, then the sync line.
pub fn picture_lines(base: Formed<i16>, out: &mut [u8]) -> usize
    requires { log_bytes ≤ length out.old }
    ensures { Put out.old 0 (picture_lines base.entry.geometry.axes base.entry.words.now) out.new result }
{
    let axes = base.geometry.axes();
    let fixed = fixed_of(base.geometry);
    let width = axes.horizontal.full.0 / 16;
    let height = axes.vertical.full.0 / 16;
    let mut counts = NO_COUNTS;
    let mut log = Log::new(out);
    for row in 0..height {
        let v = axis_read(base.geometry.vertical(), row);
        for column in 0..width {
            let given = answer_at(base, fixed, column, v);
            counts = count(counts, given);
            macroblock_line(&mut log, column, row, given);
        }
    }
    sync_line(&mut log, base.geometry.full_count() as u32, counts);
    log.written()
}
