// A player's best response over a loaded game: what his leaves are worth, the worths of his sequences, and his best moves.
#![tactic(auto)]

ghost use Rattle.std.specs.Prelude.{◌≤◌, length};
ghost use Rattle.model.specs.Limits.{count_limit};
ghost use Rattle.loaded.specs.Players.{as_player};
ghost use Rattle.responses.specs.Responses.{ResponseAsked, ResponseGiven};

use loaded::{LoadedGame, Player};

mod moves;
mod sums;
mod worths;

// The best value of a player against the other's weights `y` by number, over D0 × the other's D, and by set his best moves.
// `sums` and `worths` are scratch.
pub fn best_response(
    game: &LoadedGame<'_>,
    player: Player,
    y: &[u16],
    sums: &mut [i64],
    worths: &mut [i64],
    moves: &mut [u16],
) -> i64
    requires { ResponseAsked game.now (as_player player) y.now × (count_limit ≤ length sums.old) × (count_limit ≤ length worths.old) × (count_limit ≤ length moves.old) }
    ensures { ResponseGiven game.now (as_player player) y.now moves.old moves.new result }
{
    sums::sums(game, player, y, sums);
    let best = worths::worths(game.numbers, sums, game.counts, player, worths);
    moves::best_moves(game.numbers, worths, game.counts, player, moves);
    best
}
