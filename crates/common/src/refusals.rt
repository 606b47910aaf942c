// Document 01's refusals by their numbers. (Numbers, no enum: the definitions order refusals by them, specs/Refusals, and C hands them out.)
ghost use Rattle.definitions.specs.Basics.{pick};
ghost use Rattle.definitions.specs.Refusals.{refusal};
ghost use Rattle.definitions.specs.Replies.{Accepted};
ghost use Rattle.std.specs.Prelude.{not, ◌≡◌};

use definitions::{Refusal, Verdict};

// ---- From the input
pub const BASE_SIZE: u32 = 1;

pub const FULL_SIZE: u32 = 2;

pub const SCALED_SIZE: u32 = 3;

pub const OFFSET: u32 = 4;

pub const BASE_LENGTH: u32 = 5;

pub const OUTPUT_LENGTH: u32 = 6;

pub const POSITION: u32 = 7;

pub const RECORD: u32 = 8;

pub const GRAMMAR: u32 = 9;

pub const TEXT_SIZE: u32 = 10;

// ---- From the state
pub const NOTHING_BEGUN: u32 = 20;

pub const FINISHED: u32 = 21;

pub const UNFINISHED: u32 = 22;

// A refusal with place 0.
pub fn refused(number: u32) -> Refusal
    ensures { result ≡ refusal number }
{
    refused_at(number, 0)
}

// A refusal with its place.
pub fn refused_at(number: u32, place: u32) -> Refusal
    ensures { result ≡ record { number = number; place = place; rule = 0 } }
{
    Refusal {
        number,
        place,
        rule: 0,
    }
}

// Refused by the number, unless the test holds.
#[tactic(auto, unfolding(definitions::specs::Basics::pick))]
pub fn unless(right: bool, number: u32) -> Verdict
    ensures { result ≡ pick (not right) (Err (refusal number)) Accepted }
{
    if right {
        return Ok(());
    }
    Err(refused(number))
}
