// A pair of plans over a loaded game: each player's value, his best value and his best moves.
#![tactic(auto)]

ghost use Rattle.std.specs.Prelude.{◌≡◌, ◌+◌, ◌*◌, ◌^◌, ◌≤◌, ◌<◌, length, pos, ◌*ℤ◌};
ghost use Rattle.algebra.specs.Arrays.{item, item_z};
ghost use Rattle.model.specs.Limits.{count_limit};
ghost use Rattle.model.specs.Game.{Game, one, two};
ghost use Rattle.model.specs.Earnings.{value_count};
ghost use Rattle.loaded.specs.Sections.{leaf_section, chance_section};
ghost use Rattle.loaded.specs.Weights.{pair_by_number};
ghost use Rattle.loaded.specs.Players.{as_player};
ghost use Rattle.responses.specs.Responses.{LoadedAs};
ghost use Rattle.form.specs.Values.{PairWeights, PairAsked, Evaluated};

use loaded::{LoadedGame, Player, Section, number};
use slices::item;
use slices::sums::{added, weighed};

// Each player's value, over D0 × D1 × D2, and his best value, over D0 × the other's D.
#[derive(Clone, Copy)]
pub struct Values {
    pub value1: i64,
    pub value2: i64,
    pub best1: i64,
    pub best2: i64,
}

// Chance weight × both players' weights, each a number of 16 bits.
fn product(chance: usize, x: usize, y: usize) -> u64
    requires { (chance < 65536) × (x < 65536) × (y < 65536) }
    ensures { (result ≡ chance * x * y) × (result < 2 ^ 48) }
{
    (chance * x * y) as u64
}

// Chance weight × both weights × payoff of the leaf at place `k`. By leaf the player's payoffs stand from `from` on.
fn pair_term(game: &LoadedGame<'_>, from: usize, x: &[u16], y: &[u16], k: usize) -> i64
    requires { (leaf_section one + k < length game.now.numbers.now) × (leaf_section two + k < length game.now.numbers.now) × (chance_section + k < length game.now.numbers.now) × (from + k < length game.now.payoffs.now) × (item game.now.numbers.now (leaf_section one + k) < length x.now) × (item game.now.numbers.now (leaf_section two + k) < length y.now) }
    ensures { result ≡ pos (item game.now.numbers.now (chance_section + k) * item x.now (item game.now.numbers.now (leaf_section one + k)) * item y.now (item game.now.numbers.now (leaf_section two + k))) *ℤ item_z game.now.payoffs.now (from + k) }
{
    let drawn = number(game.numbers, Section::CHANCE, k);
    let own = item(x, number(game.numbers, Section::LEAF1, k));
    let other = item(y, number(game.numbers, Section::LEAF2, k));
    weighed(
        product(drawn, own, other),
        loaded::payoff(game.payoffs, from, k),
    )
}

// The value of a player for weights `x` and `y` by number of plans that fit, over D0 × D1 × D2.
pub fn value(game: &LoadedGame<'_>, player: Player, x: &[u16], y: &[u16]) -> i64
    requires { PairAsked game.now x.now y.now }
    ensures { (g : Game) → LoadedAs g game.now → PairWeights g x.now y.now → result ≡ value_count g (pair_by_number g (item x.now) (item y.now)) (as_player player) }
{
    let from = game.counts.side(player).payoffs;
    let mut sum: i64 = 0;
    for k in 0..game.counts.leaves {
        sum = added(sum, pair_term(game, from, x, y, k));
    }
    sum
}

// Both players' values and best values for such weights, and by set the best moves of each.
pub fn evaluate(
    game: &LoadedGame<'_>,
    x: &[u16],
    y: &[u16],
    moves1: &mut [u16],
    moves2: &mut [u16],
) -> Values
    requires { PairAsked game.now x.now y.now × (count_limit ≤ length moves1.old) × (count_limit ≤ length moves2.old) }
    ensures { (g : Game) → LoadedAs g game.now → PairWeights g x.now y.now → Evaluated g x.now y.now moves1.old moves2.old moves1.new moves2.new result }
{
    let value1 = value(game, Player::One, x, y);
    let value2 = value(game, Player::Two, x, y);
    let mut sums = [0i64; Section::ROOM];
    let mut worths = [0i64; Section::ROOM];
    let best1 = responses::best_response(game, Player::One, y, &mut sums, &mut worths, moves1);
    let best2 = responses::best_response(game, Player::Two, x, &mut sums, &mut worths, moves2);
    Values {
        value1,
        value2,
        best1,
        best2,
    }
}
