// A plan against a game: its check, and all its weights. Any bytes are taken, nothing is asked of the caller.
#![tactic(auto)]

ghost use Rattle.std.specs.Prelude.{◌≡◌};
ghost use Rattle.model.specs.Call.{outcome};
ghost use Rattle.model.specs.Calls.CheckPlan.{check_plan_of};
ghost use Rattle.model.specs.Calls.PlanFields.{plan_fields_of};
ghost use Rattle.checks.specs.Answers.{answered};
ghost use Rattle.plans.specs.Answers.{denominators_seen, counts_seen};

use checks::Refusal;
use loaded::Section;
use records::{Denominators, NodeRecord};

// D1, D2 and how many weights a plan has.
#[derive(Clone, Copy, Debug, PartialEq, Eq)]
pub struct PlanCounts {
    pub d1: u64,
    pub d2: u64,
    pub count: u64,
}

// Checks a plan file against a game file: D1 and D2 of one that fits.
pub fn check_plan(game: &[u8], plan: &[u8]) -> Result<Denominators, Refusal>
    ensures { answered denominators_seen result ≡ (check_plan_of game.now plan.now).answer }
{
    let mut numbers = [0u16; Section::NUMBERS];
    let mut payoffs = [0i16; Section::PAYOFFS];
    let mut x = [0u16; NodeRecord::NODES];
    let mut y = [0u16; NodeRecord::NODES];
    let header = pair::read(game, plan, &mut numbers, &mut payoffs, &mut x, &mut y)?;
    Ok(header.denominators)
}

// All weights of a plan in file order, into the buffer.
pub fn plan_fields(game: &[u8], plan: &[u8], weights: &mut [u64]) -> Result<PlanCounts, Refusal>
    ensures { outcome (answered counts_seen result) (weights.new, tt) ≡ plan_fields_of game.now plan.now weights.old }
{
    let mut numbers = [0u16; Section::NUMBERS];
    let mut payoffs = [0i16; Section::PAYOFFS];
    let mut x = [0u16; NodeRecord::NODES];
    let mut y = [0u16; NodeRecord::NODES];
    let pair = pair::read(game, plan, &mut numbers, &mut payoffs, &mut x, &mut y)?;
    let count = plan::weight_count(pair.counts);
    checks::has_room(count, weights.len())?;
    plan::put_weights(pair.counts, &x, &y, weights);
    let Denominators { d1, d2 } = pair.denominators;
    Ok(PlanCounts {
        d1,
        d2,
        count: count as u64,
    })
}
