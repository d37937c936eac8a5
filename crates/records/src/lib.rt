// The records of the two files, one module a file, each read and put: nothing outside knows where a field stands or how wide it is.
#![tactic(auto)]

pub mod game_file;
pub mod plan_file;

pub use game_file::{Header, Kind, NodeRecord, Payload, SetEntry, is_move_count, move_count};
pub use plan_file::{Denominators, PlanHeader};
