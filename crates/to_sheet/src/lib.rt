// Play sheets made of plans. Any bytes are taken, nothing is asked of the caller.
#![tactic(auto)]

ghost use Rattle.std.specs.Prelude.{◌≡◌, ◌≤◌, length};
ghost use Rattle.model.specs.Limits.{count_limit};
ghost use Rattle.model.specs.Plan.{weight_width, largest_denominator};
ghost use Rattle.model.specs.PlanChecks.{files};
ghost use Rattle.model.specs.Call.{outcome, run};
ghost use Rattle.model.specs.Exported.{same};
ghost use Rattle.model.specs.Calls.SheetFromPlan.{call, Returns, sheet_from_plan_of};
ghost use Rattle.checks.specs.Answers.{answered};
ghost use Rattle.to_sheet.specs.SheetCalls.{odds_call, sheet_call};

use checks::Refusal;
use loaded::Section;
use records::{NodeRecord, PlanHeader};

mod parts;

// The odds of a plan in plan order, into a buffer that has room for any plan's.
fn read_odds(game: &[u8], plan: &[u8], out: &mut [u64]) -> Result<usize, Refusal>
    requires { count_limit ≤ length out.old }
    ensures { outcome (answered same result) (out.new, tt) ≡ run odds_call (files game.now plan.now) (out.old, tt) }
{
    let mut numbers = [0u16; Section::NUMBERS];
    let mut payoffs = [0i16; Section::PAYOFFS];
    let mut x = [0u16; NodeRecord::NODES];
    let mut y = [0u16; NodeRecord::NODES];
    let pair = pair::read(game, plan, &mut numbers, &mut payoffs, &mut x, &mut y)?;
    parts::put(&numbers, pair.counts, &x, &y, out);
    Ok(plan::weight_count(pair.counts))
}

// Odds as a sheet of `width` bits a move; 18 where the buffer is too short for it.
fn put_sheet(odds: &[u64], width: usize, out: &mut [u8]) -> Result<usize, Refusal>
    requires { (1 ≤ width) × (width ≤ 64) × (length odds.now ≤ count_limit) }
    ensures { outcome (answered same result) (out.new, tt) ≡ run (sheet_call width) odds.now (out.old, tt) }
{
    let size = sheets::file_bytes(width, odds.len());
    checks::has_room(size, out.len())?;
    bits::put_run(out, 0, odds, width);
    Ok(size)
}

// The sheet of a plan, `width` bits a move.
fn make(game: &[u8], plan: &[u8], out: &mut [u8], width: usize) -> Result<usize, Refusal>
    requires { (1 ≤ width) × (width ≤ 64) }
    ensures { outcome (answered same result) (out.new, tt) ≡ run (call width) (files game.now plan.now) (out.old, tt) }
{
    let mut odds = [0u64; NodeRecord::NODES];
    let count = read_odds(game, plan, &mut odds)?;
    put_sheet(&odds[..count], width, out)
}

// Makes the play sheet of a plan: 12 bits a move, as its weights have. By the second clause the plan made of the sheet gives the same probabilities.
pub fn sheet_from_plan(game: &[u8], plan: &[u8], out: &mut [u8]) -> Result<usize, Refusal>
    ensures equation { outcome (answered same result) (out.new, tt) ≡ sheet_from_plan_of game.now plan.now out.old }
    ensures promise { Returns weight_width largest_denominator (files game.now plan.now) out.old (outcome (answered same result) (out.new, tt)) }
{
    make(game, plan, out, PlanHeader::WEIGHT_BITS)
}
