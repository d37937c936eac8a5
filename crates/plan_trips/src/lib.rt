// Demand 2 on the calls of a plan: what is read of a plan that fits and written again is the file, and weights whose file fits are read back as they were given.
// Any bytes, lists and numbers are taken, nothing is asked of the caller.
#![tactic(auto)]

ghost use Rattle.std.specs.Prelude.{◌≡◌};
ghost use Rattle.model.specs.Call.{outcome};
ghost use Rattle.model.specs.Calls.RewritePlan.{rewrite_plan_of};
ghost use Rattle.model.specs.Calls.RereadPlan.{reread_plan_of};
ghost use Rattle.model.specs.Exported.{same};
ghost use Rattle.checks.specs.Answers.{answered};
ghost use Rattle.plans.specs.Answers.{counts_seen};

use checks::Refusal;
use plans::PlanCounts;
use records::{NodeRecord, PlanHeader};

// One byte more than the longest plan of a game has.
const ROOM: usize = PlanHeader::LONGEST_FILE + 1;

// Reads all weights of a plan and writes them again: the plan file's own bytes.
pub fn rewrite_plan(game: &[u8], plan: &[u8], out: &mut [u8]) -> Result<usize, Refusal>
    ensures { outcome (answered same result) (out.new, tt) ≡ rewrite_plan_of game.now plan.now out.old }
{
    let mut weights = [0u64; NodeRecord::NODES];
    let read = plans::plan_fields(game, plan, &mut weights)?;
    let n = bits::index(read.count);
    plan_writer::write(read.d1, read.d2, &weights[..n], out)
}

// Writes a plan and reads it back with a game: D1, D2 and the very weights that are given.
// Where more bytes had to be written than there is room for, all of the room is read in their place: refused alike, by the game's own refusal or by 14.
pub fn reread_plan(
    game: &[u8],
    d1: u64,
    d2: u64,
    weights: &[u64],
    out: &mut [u64],
) -> Result<PlanCounts, Refusal>
    ensures { outcome (answered counts_seen result) (out.new, tt) ≡ reread_plan_of game.now d1 d2 weights.now out.old }
{
    let mut file = [0u8; ROOM];
    match plan_writer::write(d1, d2, weights, &mut file) {
        Ok(size) => plans::plan_fields(game, &file[..size], out),
        Err(Refusal::Room) => plans::plan_fields(game, &file, out),
        Err(refusal) => Err(refusal),
    }
}
