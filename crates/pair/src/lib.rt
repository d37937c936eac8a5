// A game file with a plan file: what every call above takes, both files checked and the weights in arrays.
#![tactic(auto)]

ghost use Rattle.std.specs.Prelude.{◌≤◌, length};
ghost use Rattle.model.specs.Limits.{count_limit};
ghost use Rattle.loaded.specs.Sections.{numbers_room, payoffs_room};
ghost use Rattle.pair.specs.Refusals.{PairRead};

use checks::Refusal;
use loaded::Counts;
use records::Denominators;

// What is known of a pair that fits an accepted game: the game's counts and the denominators.
#[derive(Clone, Copy)]
pub struct PairHeader {
    pub counts: Counts,
    pub denominators: Denominators,
}

// Checks 1 to 16. Past 13 the game is loaded, past 15 the arrays are filled with both players' weights by sequence number.
pub fn read(
    game: &[u8],
    plan: &[u8],
    numbers: &mut [u16],
    payoffs: &mut [i16],
    x: &mut [u16],
    y: &mut [u16],
) -> Result<PairHeader, Refusal>
    requires { (numbers_room ≤ length numbers.old) × (payoffs_room ≤ length payoffs.old) × (count_limit ≤ length x.old) × (count_limit ≤ length y.old) }
    ensures { PairRead game.now plan.now result numbers.new payoffs.new x.old x.new y.old y.new }
{
    let counts = game::load(game, numbers, payoffs)?;
    let denominators = plan::check(numbers, counts, plan, x, y)?;
    Ok(PairHeader {
        counts,
        denominators,
    })
}
