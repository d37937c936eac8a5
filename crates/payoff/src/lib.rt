// The payoff table of a loaded game: its leaves in the order of the table, and the numbers of each row from them.
#![tactic(auto)]

pub mod layout;
pub mod sums;
