// Where a player's moves stand in a plan file or a play sheet.
ghost use Rattle.std.specs.Prelude.{◌≡◌};
ghost use Rattle.loaded.specs.Players.{as_player};
ghost use Rattle.plan.specs.Loaded.{SequencesCounted};
ghost use Rattle.plan.specs.Weights.{run_of};

use loaded::{Counts, Player};

// How many moves of the other player come before his, and how many his are.
#[derive(Clone, Copy)]
pub struct MoveRun {
    pub before: usize,
    pub count: usize,
}

impl MoveRun {
    // A player's moves: a move for each of his sequences but the empty one. Player 1's are first.
    pub fn of(counts: Counts, player: Player) -> Self
        requires { SequencesCounted counts }
        ensures { result ≡ run_of counts (as_player player) }
    {
        let first = counts.sequences1 - 1;
        match player {
            Player::One => MoveRun {
                before: 0,
                count: first,
            },
            Player::Two => MoveRun {
                before: first,
                count: counts.sequences2 - 1,
            },
        }
    }
}
