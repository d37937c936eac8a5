// Information sets, own sequences and their numbers; checks 12 and 13 of a game file.
#![tactic(auto)]

pub mod lookup;
pub mod recall;
pub mod sets;

// How many sequences each player has.
#[derive(Clone, Copy)]
pub struct SequenceCounts {
    pub first: usize,
    pub second: usize,
}

// The own sequence that leads to a set, by its number.
#[derive(Clone, Copy)]
pub struct OwnSequence {
    pub number: u64,
}
