// Plan files for a loaded game: checked by document 01's checks 14 to 16, decoded into weights by sequence number, and put back in file order.
#![tactic(auto)]

ghost use Rattle.std.specs.Prelude.{List, ℕ, ◌≤◌, length};
ghost use Rattle.model.specs.Limits.{count_limit};
ghost use Rattle.model.specs.Game.{game_of};
ghost use Rattle.loaded.specs.Loaded.{NumbersLoaded};
ghost use Rattle.plan.specs.Loaded.{LoadedIn};
ghost use Rattle.plan.specs.Refusals.{PlanChecked};

use checks::Refusal;
use loaded::Counts;
use records::{Denominators, PlanHeader};

mod fits;
mod format;
mod move_run;
mod order;
mod weights;

pub use fits::moves_total;
pub use format::weight_count;
pub use move_run::MoveRun;
pub use order::put_weights;

// Checks 14 to 16 of a plan file, for a loaded game: D1 and D2 of a plan that fits, or the first refusal.
// Past 15 the arrays are filled with both players' weights by sequence number.
pub fn check(
    numbers: &[u16],
    counts: Counts,
    plan: &[u8],
    x: &mut [u16],
    y: &mut [u16],
) -> Result<Denominators, Refusal>
    requires { LoadedIn counts numbers.now × (count_limit ≤ length x.old) × (count_limit ≤ length y.old) }
    ensures { (game : List ℕ) → NumbersLoaded (game_of game) counts numbers.now → PlanChecked game plan.now result x.old x.new y.old y.new }
{
    format::has_length(plan, counts)?;
    format::well_formed(plan, counts)?;
    fits::plan_fits(numbers, counts, plan, x, y)?;
    let header = PlanHeader::read(plan);
    Ok(header.denominators)
}
