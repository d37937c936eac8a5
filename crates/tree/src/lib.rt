// Checks 7 to 11 of a game, over the sections of its set entries and node records: each node by itself, and the tree.
#![tactic(auto)]

pub mod children;
pub mod each_node;
pub mod paths;
