// Best moves by worths that are stored.
ghost use Rattle.std.specs.Prelude.{◌≡◌, ◌+◌, ◌≤◌, ◌<◌, length};
ghost use Rattle.algebra.specs.Arrays.{over};
ghost use Rattle.model.specs.Limits.{count_limit};
ghost use Rattle.model.specs.Game.{Game};
ghost use Rattle.model.specs.Plan.{RealizationPlan};
ghost use Rattle.loaded.specs.declared.Counts.{Counts};
ghost use Rattle.loaded.specs.Players.{as_player};
ghost use Rattle.responses.specs.Worths.{WorthsHeld};
ghost use Rattle.responses.specs.BestMoves.{own_best_move, best_stored, MovesAsked, MoveAsked};

use loaded::{Counts, Player, Section, number, owner};

// The lowest-numbered worthiest of `count` moves, whose worths stand from `start` on.
fn best_move(worths: &[i64], start: usize, count: usize) -> u16
    requires { (0 < count) × (count < 65536) × (start + count ≤ length worths.now) }
    ensures { result ≡ best_stored worths.now start count }
{
    let mut best = 0;
    for m in 1..count {
        if worths[start + best] < worths[start + m] {
            best = m;
        }
    }
    best as u16
}

// The best move of set `h`, where it is the player's; else 0.
fn best_of(numbers: &[u16], worths: &[i64], player: Player, h: usize) -> u16
    requires { MoveAsked numbers.now worths.now (as_player player) h }
    ensures { (c : Counts) (g : Game) (y : RealizationPlan) → WorthsHeld g (as_player player) y c numbers.now worths.now → h < g.sets → result ≡ own_best_move g (as_player player) y h }
{
    if owner(numbers, h) == player {
        let start = number(numbers, Section::START, h);
        let count = number(numbers, Section::MOVES, h);
        best_move(worths, start, count)
    } else {
        0
    }
}

// By set the player's best moves; 0 at the other's sets.
pub fn best_moves(
    numbers: &[u16],
    worths: &[i64],
    counts: Counts,
    player: Player,
    moves: &mut [u16],
)
    requires { MovesAsked counts numbers.now worths.now (as_player player) × (count_limit ≤ length moves.old) }
    ensures { (g : Game) (y : RealizationPlan) → WorthsHeld g (as_player player) y counts numbers.now worths.now → moves.new ≡ over (own_best_move g (as_player player) y) g.sets moves.old }
{
    for h in 0..counts.sets {
        moves[h] = best_of(numbers, worths, player, h);
    }
}
