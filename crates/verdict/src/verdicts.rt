// The verdict on a pair.
ghost use Rattle.std.specs.Prelude.{◌≡◌, map, ◌≤◌};
ghost use Rattle.algebra.specs.Arrays.{item};
ghost use Rattle.algebra.specs.Sections.{Held};
ghost use Rattle.model.specs.Game.{Game, player_number};
ghost use Rattle.model.specs.Earnings.{base_of, sets_of};
ghost use Rattle.model.specs.Call.{outcome, run};
ghost use Rattle.model.specs.Limits.{weight_limit, count_limit};
ghost use Rattle.model.specs.Writing.{player_field};
ghost use Rattle.model.specs.Calls.Verdict.{verdict_call};
ghost use Rattle.model.specs.Demand3.{Demand3Met};
ghost use Rattle.loaded.specs.Sections.{player_section};
ghost use Rattle.judgement.specs.Judgement.{judged, GainFits};
ghost use Rattle.loaded.specs.Players.{as_player};
ghost use Rattle.checks.specs.Answers.{answered};
ghost use Rattle.verdict.specs.Answers.{verdict_seen};
ghost use Rattle.verdict.specs.Showing.{showing, ShowAsked};

use super::{PairVerdict, Shown};
use checks::Refusal;
use evaluation::Evaluated;
use form::Values;
use judgement::{Deviation, strategy};
use loaded::{Player, Section};
use pair::PairHeader;
use records::{Denominators, NodeRecord};

// D0 × D1 × D2.
pub fn base(pair: PairHeader) -> u64
    requires { (pair.counts.root_weight ≤ count_limit) × (pair.denominators.d1 ≤ weight_limit) × (pair.denominators.d2 ≤ weight_limit) }
    ensures { result ≡ base_of pair.counts.root_weight pair.denominators.d1 pair.denominators.d2 }
{
    let counts = pair.counts;
    let denominators = pair.denominators;
    counts.root_weight * (denominators.d1 * denominators.d2)
}

// Who can gain, and how much.
pub fn judge(values: Values, denominators: Denominators) -> Option<Deviation>
    requires { GainFits denominators.d1 values.best1 values.value1 × GainFits denominators.d2 values.best2 values.value2 }
    ensures { result ≡ judged values.value1 values.value2 values.best1 values.best2 denominators.d1 denominators.d2 }
{
    judgement::judge(
        values.value1,
        values.value2,
        values.best1,
        values.best2,
        denominators.d1,
        denominators.d2,
    )
}

// A deviation, with the moves of its player's sets in the buffer; refused where that is too short for them.
fn show(
    numbers: &[u16],
    sets: usize,
    found: Deviation,
    base: u64,
    moves: &[u16],
    out: &mut [u64],
) -> Result<PairVerdict, Refusal>
    requires { ShowAsked numbers.now sets moves.now }
    ensures { (g : Game) → sets ≡ g.sets → Held player_section (player_field g) g.sets numbers.now → outcome (answered verdict_seen result) (out.new, tt) ≡ run (showing (player_number (as_player found.player)) found.gain base) (map (item moves.now) (sets_of g (as_player found.player))) (out.old, tt) }
{
    let count = strategy::set_count(numbers, sets, found.player);
    checks::has_room(count, out.len())?;
    strategy::put_strategy(numbers, sets, found.player, moves, out);
    let shown = Shown {
        player: found.player,
        gain: found.gain,
        sets: count as u64,
    };
    Ok(PairVerdict {
        base,
        deviation: Some(shown),
    })
}

// The verdict, with the moves of the strategy that is shown in the buffer; the second clause is demand 3.
pub fn verdict(game: &[u8], plan: &[u8], moves: &mut [u64]) -> Result<PairVerdict, Refusal>
    ensures equation { outcome (answered verdict_seen result) (moves.new, tt) ≡ verdict_call game.now plan.now moves.old }
    ensures promise { Demand3Met game.now plan.now moves.old (outcome (answered verdict_seen result) (moves.new, tt)) }
{
    let mut numbers = [0u16; Section::NUMBERS];
    let mut payoffs = [0i16; Section::PAYOFFS];
    let mut moves1 = [0u16; NodeRecord::NODES];
    let mut moves2 = [0u16; NodeRecord::NODES];
    let Evaluated { pair, values } = evaluation::evaluate(
        game,
        plan,
        &mut numbers,
        &mut payoffs,
        &mut moves1,
        &mut moves2,
    )?;
    let sets = pair.counts.sets;
    let base = base(pair);
    let Some(found) = judge(values, pair.denominators) else {
        return Ok(PairVerdict {
            base,
            deviation: None,
        });
    };
    match found.player {
        Player::One => show(&numbers, sets, found, base, &moves1, moves),
        Player::Two => show(&numbers, sets, found, base, &moves2, moves),
    }
}
