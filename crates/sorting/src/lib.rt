// Places sorted by their keys, and leaves sorted by pairs of sequences into rows, over plain number slices.
#![tactic(auto)]

pub mod pairs;
pub mod sort;
