// Every call by one name: each family of calls has its crate.
#![tactic(auto)]

pub use checks::Refusal;
pub use columns::GameBuffers;
pub use fields::game_fields;
pub use fitting::GameLists;
pub use from_sheet::plan_from_sheet;
pub use game::GameCounts;
pub use game_writer::write as write_game;
pub use loaded::Player;
pub use lookups::{Node, Place, SetFields, check_game, node_record, own_sequence, set_entry};
pub use plan_writer::write as write_plan;
pub use plans::{PlanCounts, check_plan, plan_fields};
pub use records::Denominators;
pub use report::reports::{refusal_line, report};
pub use rows::{Row, payoff_rows};
pub use sequences::OwnSequence;
pub use table::payoff_table;
pub use to_sheet::sheet_from_plan;
pub use tolerance::tolerates;
pub use verdict::values::values;
pub use verdict::verdicts::verdict;
pub use verdict::{PairValues, PairVerdict, Shown};
