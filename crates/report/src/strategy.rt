// The strategy that is shown: a line for each of a player's sets, rising.
ghost use Rattle.std.specs.Prelude.{◌≤◌, ◌<◌, length};
ghost use Rattle.loaded.specs.Players.{as_player};
ghost use Rattle.text.specs.Text.{TextFits, Put};
ghost use Rattle.report.specs.Whole.{set_line, strategy_lines};

use loaded::{Player, owner};
use text::lines::put_move_line;

// Puts the line of set `h`, where it is the player's.
fn put_set(
    numbers: &[u16],
    player: Player,
    h: usize,
    moves: &[u16],
    out: &mut [u8],
    at: usize,
) -> usize
    requires { (h < length numbers.now) × (h < length moves.now) × TextFits at (set_line numbers.now (as_player player) moves.now h) out.old }
    ensures { Put at (set_line numbers.now (as_player player) moves.now h) out.old out.new result }
{
    if owner(numbers, h) == player {
        return put_move_line(h as u64, u64::from(moves[h]), out, at);
    }
    at
}

// Puts the lines of the player's sets; `numbers` has the player of each set of the game, `moves` its move.
pub fn put_strategy(
    numbers: &[u16],
    sets: usize,
    player: Player,
    moves: &[u16],
    out: &mut [u8],
    at: usize,
) -> usize
    requires { (sets ≤ length numbers.now) × (sets ≤ length moves.now) × TextFits at (strategy_lines numbers.now sets (as_player player) moves.now) out.old }
    ensures { Put at (strategy_lines numbers.now sets (as_player player) moves.now) out.old out.new result }
{
    let mut next = at;
    for h in 0..sets {
        next = put_set(numbers, player, h, moves, out, next);
    }
    next
}
