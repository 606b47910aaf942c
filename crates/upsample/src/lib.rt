// The one-macroblock call of document 01, on records of 16-bit words, and on those of 32-bit words (document 02, E12).
#![tactic(auto)]

pub mod place; // place.rt: a macroblock of the picture
pub mod site; // site.rt: refusals 1 to 7, and the records that are read

ghost use Rattle.definitions.specs.Calls.{macroblock_call};
ghost use Rattle.definitions.specs.Refusals.{record_tests, verdict_of};
ghost use Rattle.upsample.specs.Promised.{SinglyPromised};
ghost use Rattle.upsample.specs.Sited.{Callable, RunIn, runs_of, site_call};
ghost use Rattle.std.specs.Prelude.{map, ◌≡◌};

use crate::site::{Run, Site, place_of, site_of};
use definitions::{MacroblockReply, Numbers, Verdict};
use macroblock::answer;
use scan::check;
use word::Word;

// Refusal 8 on the records that a macroblock reads, those of the upper row first.
fn check_runs<W: Word>(base: &[W], upper: Run, lower: Run) -> Verdict
    requires { RunIn (map W.value base.now) upper × RunIn (map W.value base.now) lower }
    ensures { result ≡ verdict_of (record_tests W.LIMIT (map W.value base.now) (runs_of upper lower)) }
{
    check(base, upper.from, upper.to)?;
    check(base, lower.from, lower.to)
}

// Lengths and position are right: refusal 8, or the answer.
fn upsample_site<W: Word>(base: &[W], s: Site, out: &mut [W]) -> MacroblockReply
    requires { Callable W.LIMIT s (map W.value base.now) (map W.value out.old) }
    ensures reply { result ≡ (site_call W.LIMIT s (map W.value base.now) (map W.value out.old)).reply }
    ensures words { map W.value out.new ≡ (site_call W.LIMIT s (map W.value base.now) (map W.value out.old)).words }
{
    check_runs(base, s.upper, s.lower)?;
    Ok(answer(base, s.fixed, s.h, s.v, out))
}

// The one-macroblock call: geometry, base, column, row, and 78 words to write.
pub fn upsample_macroblock<W: Word>(
    n: Numbers,
    base: &[W],
    column: i32,
    row: i32,
    out: &mut [W],
) -> MacroblockReply
    ensures reply { result ≡ (macroblock_call W.LIMIT n (map W.value base.now) column row (map W.value out.old)).reply }
    ensures words { map W.value out.new ≡ (macroblock_call W.LIMIT n (map W.value base.now) column row (map W.value out.old)).words }
    ensures demand3 { SinglyPromised W.LIMIT n (map W.value base.now) column row (map W.value out.old) result (map W.value out.new) }
{
    let place = place_of(n, base.len(), column, row, out.len())?;
    upsample_site(base, site_of(place), out)
}
