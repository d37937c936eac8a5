// A player's strategy as it is shown: the move of each of his sets, rising.
ghost use Rattle.std.specs.Prelude.{◌≡◌, map, ◌+◌, ◌≤◌, ◌<◌, length};
ghost use Rattle.algebra.specs.Arrays.{item, placed};
ghost use Rattle.algebra.specs.Sections.{Held};
ghost use Rattle.model.specs.Game.{Game};
ghost use Rattle.model.specs.Earnings.{sets_of};
ghost use Rattle.model.specs.Writing.{player_field};
ghost use Rattle.loaded.specs.Sections.{player_section};
ghost use Rattle.loaded.specs.Players.{as_player};
ghost use Rattle.judgement.specs.Strategy.{own_alone, StrategyAsked};

use loaded::{Player, owner};

// How many of a loaded game's sets are the player's.
pub fn set_count(numbers: &[u16], sets: usize, player: Player) -> usize
    requires { sets ≤ length numbers.now }
    ensures { (g : Game) → sets ≡ g.sets → Held player_section (player_field g) g.sets numbers.now → result ≡ length (sets_of g (as_player player)) }
{
    (0..sets).filter(|&h| owner(numbers, h) == player).count()
}

// The move of set `h`, where it is the player's, into place `at`; the next place that is free.
fn put_move(
    numbers: &[u16],
    player: Player,
    h: usize,
    moves: &[u16],
    at: usize,
    out: &mut [u64],
) -> usize
    requires { (h < length numbers.now) × (h < length moves.now) × (at + length (own_alone numbers.now (as_player player) h) ≤ length out.old) }
    ensures { (result ≡ at + length (own_alone numbers.now (as_player player) h)) × (out.new ≡ placed at (map (item moves.now) (own_alone numbers.now (as_player player) h)) out.old) }
{
    if owner(numbers, h) == player {
        out[at] = moves[h] as u64;
        return at + 1;
    }
    at
}

// The moves of the player's sets, rising, into `out` from its first place on; `moves` has a move for every set of the game.
pub fn put_strategy(numbers: &[u16], sets: usize, player: Player, moves: &[u16], out: &mut [u64])
    requires { StrategyAsked numbers.now sets (as_player player) moves.now out.old }
    ensures { (g : Game) → sets ≡ g.sets → Held player_section (player_field g) g.sets numbers.now → out.new ≡ placed 0 (map (item moves.now) (sets_of g (as_player player))) out.old }
{
    let mut at = 0;
    for h in 0..sets {
        at = put_move(numbers, player, h, moves, at, out);
    }
}
