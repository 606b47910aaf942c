// The session of document 01: one picture made macroblock by macroblock, with a state that is handed over and back by value.
#![tactic(auto)]

ghost use Rattle.std.specs.Prelude.{◌<◌, false, ◌≡◌};
ghost use Rattle.definitions.specs.Calls.{sum_of};
ghost use Rattle.definitions.specs.Session.{abandon, abandon_verdict, begin, begin_verdict, fresh, next, next_call, totals, totals_of, unfinished};
ghost use Rattle.session.specs.Promised.{NextPromised, TotalsPromised};
ghost use Rattle.session.specs.Stage.{stage_in, stage_of};
ghost use Rattle.session.specs.Values.{HandsBack, advanced_by, fresh_session, state_of};

use common::counts::{NO_COUNTS, count, sum};
use common::refusals;
use common::refusals::refused;
use definitions::{AxisNumbers, Counts, MacroblockReply, Numbers, Verdict};
use geometry::Geometry;
use upsample::upsample_macroblock;

// Nothing begun; or the geometry's numbers, and the counts of the accepted next calls. Any value can be handed over: one that no list of calls
// makes is answered as a fresh one.
// (A flag beside the numbers: the C interface hands over any numbers with it, and a refused call hands back the very value, HandsBack.)
#[derive(Clone, Copy)]
pub struct Session {
    pub begun: bool,
    pub numbers: Numbers,
    pub counts: Counts,
}

// What begin and abandon hand back.
#[derive(Clone, Copy)]
pub struct Judged {
    pub session: Session,
    pub verdict: Verdict,
}

// What next hands back.
#[derive(Clone, Copy)]
pub struct Advanced {
    pub session: Session,
    pub reply: MacroblockReply,
}

// What totals hands back.
#[derive(Clone, Copy)]
pub struct Totalled {
    pub session: Session,
    pub counts: Counts,
}

// Where a session stands: nothing begun, or the next macroblock's column and row, or after the last macroblock.
#[derive(Clone, Copy)]
pub enum Stage {
    Nothing,
    Unfinished(u32, u32),
    Finished,
}

// By a geometry, and the macroblocks counted.
#[tactic(auto, unfolding(crate::specs::Stage::stage_in, definitions::specs::Basics::pick))]
fn stage_in(g: Geometry, c: Counts) -> Stage
    ensures { result ≡ stage_in g.axes (sum_of c) }
{
    let total = g.full_count() as u64;
    let at = sum(c);
    if total < at {
        return Stage::Nothing;
    }
    let left = total - at;
    if left == 0 {
        return Stage::Finished;
    }
    let address = at as usize;
    Stage::Unfinished(g.column_at(address), g.row_at(address))
}

// Where a session value stands; one that no list of calls makes stands at nothing.
fn stage_of(s: Session) -> Stage
    ensures { result ≡ stage_of (state_of s) }
{
    let numbers = s.numbers;
    let counts = s.counts;
    if s.begun {
        return match Geometry::new(numbers) {
            Ok(g) => stage_in(g, counts),
            Err(_) => Stage::Nothing,
        };
    }
    Stage::Nothing
}

// No picture is unfinished: refusals 1 to 4, or the picture is begun.
fn begin_anew(s: Session, n: Numbers) -> Judged
    requires { unfinished (state_of s) ≡ false }
    ensures verdict { result.verdict ≡ begin_verdict (state_of s) n }
    ensures session { HandsBack s (begin n) result.session }
{
    let counts = NO_COUNTS;
    match Geometry::new(n) {
        Ok(_) => Judged {
            session: Session {
                begun: true,
                numbers: n,
                counts,
            },
            verdict: Ok(()),
        },
        Err(r) => Judged {
            session: s,
            verdict: Err(r),
        },
    }
}

// The session after a reply of the one-macroblock call: an answer is counted.
fn advance(s: Session, reply: MacroblockReply) -> Session
    requires { sum_of s.counts < 65536 }
    ensures { result ≡ advanced_by reply s }
{
    let numbers = s.numbers;
    let counts = s.counts;
    match reply {
        Ok(a) => Session {
            begun: true,
            numbers,
            counts: count(counts, a),
        },
        Err(_) => s,
    }
}

impl Session {
    // Nothing begun.
    pub fn fresh() -> Session
        ensures value { result ≡ fresh_session }
        ensures state { state_of result ≡ fresh }
    {
        let zeros = AxisNumbers {
            base: 0,
            scaled: 0,
            offset: 0,
            full: 0,
        };
        Session {
            begun: false,
            numbers: Numbers {
                horizontal: zeros,
                vertical: zeros,
            },
            counts: NO_COUNTS,
        }
    }

    // Refusals 22, and 1 to 4.
    pub fn begin(self, n: Numbers) -> Judged
        ensures verdict { result.verdict ≡ begin_verdict (state_of self) n }
        ensures session { HandsBack self (begin n) result.session }
    {
        match stage_of(self) {
            Stage::Nothing => begin_anew(self, n),
            Stage::Unfinished(_, _) => Judged {
                session: self,
                verdict: Err(refused(refusals::UNFINISHED)),
            },
            Stage::Finished => begin_anew(self, n),
        }
    }

    // The next macroblock in raster order: refusals 20 and 21, and those of the one-macroblock call.
    #[tactic(auto, using(crate::proofs::Handing::next_small))]
    pub fn next(self, base: &[i16], out: &mut [i16]) -> Advanced
        ensures reply { result.reply ≡ (next_call (state_of self) base.now out.old).reply }
        ensures words { out.new ≡ (next_call (state_of self) base.now out.old).words }
        ensures session { HandsBack self (next base.now out.old) result.session }
        ensures demand3 { NextPromised (state_of self) base.now out.old result.reply out.new }
    {
        let numbers = self.numbers;
        match stage_of(self) {
            Stage::Nothing => Advanced {
                session: self,
                reply: Err(refused(refusals::NOTHING_BEGUN)),
            },
            Stage::Unfinished(column, row) => {
                let reply = upsample_macroblock(numbers, base, column as i32, row as i32, out);
                Advanced {
                    session: advance(self, reply),
                    reply,
                }
            }
            Stage::Finished => Advanced {
                session: self,
                reply: Err(refused(refusals::FINISHED)),
            },
        }
    }

    // Makes it fresh: refusals 20 and 21.
    pub fn abandon(self) -> Judged
        ensures verdict { result.verdict ≡ abandon_verdict (state_of self) }
        ensures session { HandsBack self abandon result.session }
    {
        let anew = Session::fresh();
        match stage_of(self) {
            Stage::Nothing => Judged {
                session: self,
                verdict: Err(refused(refusals::NOTHING_BEGUN)),
            },
            Stage::Unfinished(_, _) => Judged {
                session: anew,
                verdict: Ok(()),
            },
            Stage::Finished => Judged {
                session: self,
                verdict: Err(refused(refusals::FINISHED)),
            },
        }
    }

    // The counts of the accepted next calls of each sort since the last accepted begin or abandon.
    pub fn totals(self) -> Totalled
        ensures counts { result.counts ≡ totals_of (state_of self) }
        ensures session { HandsBack self totals result.session }
        ensures made { TotalsPromised self result.counts }
    {
        let none = NO_COUNTS;
        let made = self.counts;
        match stage_of(self) {
            Stage::Nothing => Totalled {
                session: self,
                counts: none,
            },
            Stage::Unfinished(_, _) => Totalled {
                session: self,
                counts: made,
            },
            Stage::Finished => Totalled {
                session: self,
                counts: made,
            },
        }
    }
}
