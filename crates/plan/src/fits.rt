// Check 16: in each set the move weights add up to the weight of the own sequence leading to the set.
ghost use Rattle.std.specs.Prelude.{◌≡◌, suc, ◌+◌, ◌≤◌, ◌<◌, length};
ghost use Rattle.algebra.specs.Bounded.{total_to, implies};
ghost use Rattle.algebra.specs.Arrays.{item};
ghost use Rattle.model.specs.Limits.{count_limit};
ghost use Rattle.model.specs.Game.{Game, one, two, owns};
ghost use Rattle.model.specs.Plan.{balanced, fits, pair_fits_of};
ghost use Rattle.checks.specs.declared.Refusal.TheVariants.{PlanUnfit};
ghost use Rattle.checks.specs.Answers.{checked_of};
ghost use Rattle.loaded.specs.Players.{as_player};
ghost use Rattle.loaded.specs.Loaded.{NumbersLoaded};
ghost use Rattle.loaded.specs.Weights.{plan_by_number, pair_by_number};
ghost use Rattle.plan.specs.Loaded.{LoadedIn, SetsLoaded, FitsAsked};
ghost use Rattle.plan.specs.Refusals.{Weighed};

use super::move_run::MoveRun;
use super::weights;
use checks::Refusal;
use loaded::{Counts, Player};
use records::PlanHeader;

// The sum of the numbers of a set's moves, the first at `start`: weights, or odds.
pub fn moves_total(x: &[u16], start: usize, moves: usize) -> usize
    requires { (moves ≤ 64) × (start + moves ≤ length x.now) }
    ensures { result ≡ total_to moves (λ m. item x.now (start + m)) }
{
    let mut sum = 0;
    for m in 0..moves {
        sum += loaded::number(x, start, m);
    }
    sum
}

// Whether set `h`, where it is the player's, is balanced.
fn set_balanced(numbers: &[u16], h: usize, player: Player, x: &[u16]) -> bool
    requires { FitsAsked (suc h) (as_player player) numbers.now x.now }
    ensures { (g : Game) → SetsLoaded g numbers.now → h < g.sets → result ≡ implies (owns g (as_player player) h) (balanced g (plan_by_number g (as_player player) (item x.now)) h) }
{
    if loaded::owner(numbers, h) == player {
        let set = loaded::set_sequences(numbers, h);
        return moves_total(x, set.start, set.moves) == loaded::number(x, 0, set.lead);
    }
    true
}

// Check 16, for one player: his sets one by one.
fn player_fits(numbers: &[u16], sets: usize, player: Player, x: &[u16]) -> Result<(), Refusal>
    requires { FitsAsked sets (as_player player) numbers.now x.now }
    ensures { (g : Game) → SetsLoaded g numbers.now → sets ≡ g.sets → result ≡ checked_of PlanUnfit (fits g (as_player player) (plan_by_number g (as_player player) (item x.now))) }
{
    for h in 0..sets {
        if !set_balanced(numbers, h, player, x) {
            return Err(Refusal::PlanUnfit);
        }
    }
    Ok(())
}

// Check 16 of weights by sequence number.
fn pair_fits(numbers: &[u16], sets: usize, x: &[u16], y: &[u16]) -> Result<(), Refusal>
    requires { FitsAsked sets one numbers.now x.now × FitsAsked sets two numbers.now y.now }
    ensures { (g : Game) → SetsLoaded g numbers.now → sets ≡ g.sets → result ≡ checked_of PlanUnfit (pair_fits_of g (pair_by_number g (item x.now) (item y.now))) }
{
    player_fits(numbers, sets, Player::One, x)?;
    player_fits(numbers, sets, Player::Two, y)
}

// Check 16 of a plan file: both players' weights are put into the arrays by sequence number, and fit or not.
pub fn plan_fits(
    numbers: &[u16],
    counts: Counts,
    plan: &[u8],
    x: &mut [u16],
    y: &mut [u16],
) -> Result<(), Refusal>
    requires { LoadedIn counts numbers.now × (count_limit ≤ length x.old) × (count_limit ≤ length y.old) }
    ensures { (g : Game) → NumbersLoaded g counts numbers.now → Weighed g plan.now result x.old x.new y.old y.new }
{
    let header = PlanHeader::read(plan);
    let denominators = header.denominators;
    let first = MoveRun::of(counts, Player::One);
    let second = MoveRun::of(counts, Player::Two);
    weights::decode(plan, denominators.d1, first, x);
    weights::decode(plan, denominators.d2, second, y);
    pair_fits(numbers, counts.sets, x, y)
}
