// Motion records: their layout, reading, tests and writing.
#![tactic(auto)]

pub mod check; // check.rt: the tests of words that the scan and the rules make
pub mod layout; // layout.rt: where the words stand, types and sub-types
pub mod read; // read.rt: reading
pub mod write; // write.rt: writing
