// What every call refuses by and counts, below the calls.
#![tactic(auto)]

pub mod counts; // counts.rt: inherited, intra, outside
pub mod refusals; // refusals.rt: the refusals by number
