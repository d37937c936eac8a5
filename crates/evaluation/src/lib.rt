// A pair, read from its files and evaluated: what the calls for values, verdict and report begin with.
#![tactic(auto)]

ghost use Rattle.std.specs.Prelude.{◌≤◌, length};
ghost use Rattle.model.specs.Limits.{count_limit};
ghost use Rattle.loaded.specs.Sections.{numbers_room, payoffs_room};
ghost use Rattle.evaluation.specs.Pairs.{PairLeft};

use checks::Refusal;
use form::Values;
use loaded::LoadedGame;
use pair::PairHeader;
use records::NodeRecord;

// What was read and evaluated of a pair that fits.
#[derive(Clone, Copy)]
pub struct Evaluated {
    pub pair: PairHeader,
    pub values: Values,
}

// Checks 1 to 16, and of a pair that fits the values; `numbers` and `payoffs` then have the loaded game,
// `moves1` and `moves2` by set the best moves of each player.
pub fn evaluate(
    game: &[u8],
    plan: &[u8],
    numbers: &mut [u16],
    payoffs: &mut [i16],
    moves1: &mut [u16],
    moves2: &mut [u16],
) -> Result<Evaluated, Refusal>
    requires { (numbers_room ≤ length numbers.old) × (payoffs_room ≤ length payoffs.old) × (count_limit ≤ length moves1.old) × (count_limit ≤ length moves2.old) }
    ensures { PairLeft game.now plan.now moves1.old moves2.old result numbers.new payoffs.new moves1.new moves2.new }
{
    let mut x = [0u16; NodeRecord::NODES];
    let mut y = [0u16; NodeRecord::NODES];
    let pair = pair::read(game, plan, numbers, payoffs, &mut x, &mut y)?;
    let loaded = LoadedGame {
        numbers,
        payoffs,
        counts: pair.counts,
    };
    let values = form::evaluate(&loaded, &x, &y, moves1, moves2);
    Ok(Evaluated { pair, values })
}
