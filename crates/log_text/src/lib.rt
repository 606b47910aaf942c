// The log of a sync text, from bytes to bytes.
#![tactic(auto)]

ghost use Rattle.std.specs.Prelude.{◌*◌, ◌≤◌, ◌<◌, length, ◌≡◌};
ghost use Rattle.definitions.specs.Log.{LogAnswer, no_picture_line, judged, log_bytes, refused_line};
ghost use Rattle.definitions.specs.Record.{record_words};
ghost use Rattle.log_lines.specs.Put.{Put};
ghost use Rattle.log_text.specs.Given.{Given, LinesGiven};
ghost use Rattle.log_text.specs.Promised.{LogPromised};

use bases::Base;
use common::refusals;
use common::refusals::refused;
use definitions::{LogReply, Logged, RECORD_WORDS, Refusal, TextRead};
use geometry::Geometry;
use log_lines::Log;
use log_picture::picture_lines;
use sync_text::{TEXT_WORDS, read_text};

// The bytes that every log fits: 65,536 lines of at most 18, and a last one of at most 31. (The call tests it once; as a type it would be the lent slice with its length, no plainer.)
pub const LOG_BYTES: usize = 1179679;

// ---- What is found of a text: that it means no picture; its picture, whose lines have so many bytes; or its refusal
// The text is read: refusals 1 to 5 and 8, or the lines.
fn read_lines(t: TextRead, base: &[i16], out: &mut [u8]) -> Result<Option<usize>, Refusal>
    requires { (length base.now ≡ record_words * t.lines) × (log_bytes ≤ length out.old) }
    ensures { Given out.old (judged t.numbers t.lines base.now) result out.new }
{
    let g = Geometry::new(t.numbers)?;
    let base = Base::new(g, base)?;
    let formed = base.judged()?;
    Ok(Some(picture_lines(formed, out)))
}

// The lines of a text's picture; or its refusal, or that it means none, and then no byte is written.
fn text_lines(text: &[u8], out: &mut [u8]) -> Result<Option<usize>, Refusal>
    requires { log_bytes ≤ length out.old }
    ensures { LinesGiven text.now out.old result out.new }
{
    let mut words = [0i16; TEXT_WORDS];
    match read_text(text, &mut words)? {
        None => Ok(None),
        Some(t) => {
            let end = RECORD_WORDS * t.lines as usize;
            read_lines(t, &words[..end], out)
        }
    }
}

// (refused number place)
fn refused_line(out: &mut [u8], r: Refusal) -> usize
    requires { (r.number < 100) × (r.place ≤ 65536) × (31 ≤ length out.old) }
    ensures { Put out.old 0 (refused_line r) out.new result }
{
    let numbers = [r.number, r.place];
    let mut log = Log::new(out);
    log.line(b"refused", &numbers);
    log.written()
}

// (sync 0 0 0 0)
fn no_picture_line(out: &mut [u8]) -> usize
    requires { 31 ≤ length out.old }
    ensures { Put out.old 0 no_picture_line out.new result }
{
    let numbers = [0; 4];
    let mut log = Log::new(out);
    log.line(b"sync", &numbers);
    log.written()
}

// The log call: the bytes of a text, and bytes to write its log into. It gives the length of the log, and the refusal that the log says, with its rule, or none, and
// whether the text means no picture; refused for too few bytes, it writes none.
pub fn log(text: &[u8], out: &mut [u8]) -> LogReply
    ensures answer { LogAnswer text.now out.old result out.new }
    ensures demand2 { LogPromised text.now result out.new }
{
    if out.len() < LOG_BYTES {
        return Err(refused(refusals::OUTPUT_LENGTH));
    }
    match text_lines(text, out) {
        Ok(None) => Ok(Logged {
            bytes: no_picture_line(out),
            verdict: Ok(()),
            empty: true,
        }),
        Ok(Some(n)) => Ok(Logged {
            bytes: n,
            verdict: Ok(()),
            empty: false,
        }),
        Err(r) => Ok(Logged {
            bytes: refused_line(out, r),
            verdict: Err(r),
            empty: false,
        }),
    }
}
