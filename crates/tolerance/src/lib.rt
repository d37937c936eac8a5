// The call for house tolerance.
#![tactic(auto)]

ghost use Rattle.std.specs.Prelude.{◌≡◌, ◌&&◌};
ghost use Rattle.model.specs.Earnings.{◌over◌};
ghost use Rattle.model.specs.Tolerance.{thousandths, at_most};
ghost use Rattle.model.specs.Calls.Tolerance.{tolerates, ToleranceMet};
ghost use Rattle.judgement.specs.Judgement.{gain_of};
ghost use Rattle.model.specs.Exported.{same};
ghost use Rattle.checks.specs.Answers.{answered};
ghost use Rattle.tolerance.specs.Gains.{GainAsked};

use checks::Refusal;
use evaluation::Evaluated;
use form::Values;
use loaded::Section;
use records::{Denominators, NodeRecord};
use verdict::verdicts;

// Whether a player's gain is at most the tolerance: `best` is over D0 × the other's D, `denominator` is his own D, `base` D0 × D1 × D2.
fn gain_within(denominator: u64, best: i64, value: i64, base: u64, tolerance: u64) -> bool
    requires { GainAsked denominator best value base }
    ensures { result ≡ at_most (gain_of denominator best value over base) (thousandths tolerance) }
{
    let gain = judgement::gain(denominator, best, value);
    thousandths::at_most(gain, base, tolerance)
}

// Whether both players' gains are.
fn passes(values: Values, denominators: Denominators, base: u64, tolerance: u64) -> bool
    requires { GainAsked denominators.d1 values.best1 values.value1 base × GainAsked denominators.d2 values.best2 values.value2 base }
    ensures { result ≡ (at_most (gain_of denominators.d1 values.best1 values.value1 over base) (thousandths tolerance) && at_most (gain_of denominators.d2 values.best2 values.value2 over base) (thousandths tolerance)) }
{
    let first = gain_within(
        denominators.d1,
        values.best1,
        values.value1,
        base,
        tolerance,
    );
    let second = gain_within(
        denominators.d2,
        values.best2,
        values.value2,
        base,
        tolerance,
    );
    first && second
}

// Whether the pair passes at a tolerance in thousandths of a payoff point: no strategy of either player gains more, as the second clause says.
pub fn tolerates(game: &[u8], plan: &[u8], tolerance: u16) -> Result<bool, Refusal>
    ensures equation { answered same result ≡ (tolerates tolerance game.now plan.now).answer }
    ensures promise { ToleranceMet tolerance game.now plan.now (answered same result) }
{
    let mut numbers = [0u16; Section::NUMBERS];
    let mut payoffs = [0i16; Section::PAYOFFS];
    let mut moves1 = [0u16; NodeRecord::NODES];
    let mut moves2 = [0u16; NodeRecord::NODES];
    let Evaluated { pair, values } = evaluation::evaluate(
        game,
        plan,
        &mut numbers,
        &mut payoffs,
        &mut moves1,
        &mut moves2,
    )?;
    let base = verdicts::base(pair);
    let passes = passes(values, pair.denominators, base, tolerance as u64);
    Ok(passes)
}
