// The last sections of a loaded game: its sets in order, its leaves, and the chains of sets that a sequence leads to.
#![tactic(auto)]

pub mod chains;
pub mod leaves;
pub mod order;
