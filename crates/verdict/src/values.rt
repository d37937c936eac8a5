// Values and best values of a pair.
ghost use Rattle.std.specs.Prelude.{◌≡◌};
ghost use Rattle.model.specs.Calls.Values.{values_call};
ghost use Rattle.checks.specs.Answers.{answered};
ghost use Rattle.verdict.specs.Answers.{values_seen};

use super::PairValues;
use checks::Refusal;
use evaluation::Evaluated;
use loaded::Section;
use records::NodeRecord;

// The players' values and best values, with what they are counted over.
pub fn values(game: &[u8], plan: &[u8]) -> Result<PairValues, Refusal>
    ensures { answered values_seen result ≡ (values_call game.now plan.now).answer }
{
    let mut numbers = [0u16; Section::NUMBERS];
    let mut payoffs = [0i16; Section::PAYOFFS];
    let mut moves1 = [0u16; NodeRecord::NODES];
    let mut moves2 = [0u16; NodeRecord::NODES];
    let Evaluated { pair, values } = evaluation::evaluate(
        game,
        plan,
        &mut numbers,
        &mut payoffs,
        &mut moves1,
        &mut moves2,
    )?;
    Ok(PairValues {
        value1: values.value1,
        value2: values.value2,
        best1: values.best1,
        best2: values.best2,
        root_weight: pair.counts.root_weight,
        d1: pair.denominators.d1,
        d2: pair.denominators.d2,
    })
}
