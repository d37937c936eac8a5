// What the leaves at each of a player's sequences are worth.
ghost use Rattle.std.specs.Prelude.{◌≡◌, ◌+◌, ◌*◌, ◌≤◌, ◌<◌, length, pos, ◌*ℤ◌};
ghost use Rattle.algebra.specs.Arrays.{item, item_z, over};
ghost use Rattle.model.specs.Limits.{count_limit};
ghost use Rattle.model.specs.Game.{Game, other};
ghost use Rattle.model.specs.Sequences.{sequence_count};
ghost use Rattle.loaded.specs.Sections.{chance_section};
ghost use Rattle.loaded.specs.Weights.{plan_by_number, Weights};
ghost use Rattle.loaded.specs.Players.{as_player};
ghost use Rattle.responses.specs.Worths.{HoldsZ, leaves_at};
ghost use Rattle.responses.specs.Responses.{LoadedAs, ResponseAsked};

use loaded::{LoadedGame, Player, Section, number};
use slices::item;
use slices::sums::{added, weighed};

// Chance weight × the other player's weight × payoff of the leaf at place `k`. By leaf the other's sequences stand from `opponent` on, the payoffs from `from` on.
fn opponent_term(game: &LoadedGame<'_>, opponent: usize, from: usize, y: &[u16], k: usize) -> i64
    requires { (opponent + k < length game.now.numbers.now) × (chance_section + k < length game.now.numbers.now) × (from + k < length game.now.payoffs.now) × (item game.now.numbers.now (opponent + k) < length y.now) }
    ensures { result ≡ pos (item game.now.numbers.now (chance_section + k) * item y.now (item game.now.numbers.now (opponent + k))) *ℤ item_z game.now.payoffs.now (from + k) }
{
    let s = number(game.numbers, opponent, k);
    let weight = number(game.numbers, Section::CHANCE, k) * item(y, s);
    weighed(weight as u64, loaded::payoff(game.payoffs, from, k))
}

// What the leaves at each of the player's sequences are worth against the other's weights `y`: the leaves, added up by his own sequence.
pub fn sums(game: &LoadedGame<'_>, player: Player, y: &[u16], out: &mut [i64])
    requires { ResponseAsked game.now (as_player player) y.now × (count_limit ≤ length out.old) }
    ensures { (g : Game) → LoadedAs g game.now → Weights g (other (as_player player)) y.now → HoldsZ (leaves_at g (as_player player) (plan_by_number g (other (as_player player)) (item y.now))) (sequence_count g (as_player player)) out.new }
{
    let side = game.counts.side(player);
    let own = side.own;
    let opponent = side.opponent;
    let from = side.payoffs;
    out[..side.sequences].fill(0);
    for k in 0..game.counts.leaves {
        let s = number(game.numbers, own, k);
        let term = opponent_term(game, opponent, from, y, k);
        out[s] = added(out[s], term);
    }
}
