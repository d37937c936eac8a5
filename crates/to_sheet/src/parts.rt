// The odds of weights by sequence number: each set's weights divided by their greatest common divisor, in plan order.
ghost use Rattle.std.specs.Prelude.{◌≡◌, ◌++◌, suc, ◌+◌, ◌/◌, ◌≤◌, ◌<◌, length};
ghost use Rattle.algebra.specs.Arrays.{item, placed};
ghost use Rattle.algebra.specs.Bounded.{list_to};
ghost use Rattle.algebra.specs.Divisors.{gcd_to};
ghost use Rattle.model.specs.Limits.{count_limit};
ghost use Rattle.model.specs.Game.{Game, one, two, moves_before};
ghost use Rattle.loaded.specs.Players.{as_player};
ghost use Rattle.loaded.specs.Loaded.{NumbersLoaded};
ghost use Rattle.plan.specs.Loaded.{LoadedIn, SetsLoaded};
ghost use Rattle.to_sheet.specs.Parts.{parts_at, player_parts, PartsAsked};

use loaded::{Counts, Player, SetSequences};

// The greatest common divisor of the weights of a set's moves; 0 where all of them are 0.
fn set_divisor(x: &[u16], set: SetSequences) -> u64
    requires { set.start + set.moves ≤ length x.now }
    ensures { result ≡ gcd_to set.moves (λ m. item x.now (set.start + m)) }
{
    let mut divisor = 0;
    for m in 0..set.moves {
        divisor = divisors::gcd(divisor, loaded::number(x, set.start, m) as u64);
    }
    divisor
}

// A weight divided by its set's divisor, or not at all: where that is 0, so is the weight.
fn part(weight: u64, divisor: u64) -> u64
    ensures { result ≡ weight / divisor }
{
    weight.checked_div(divisor).unwrap_or(0)
}

// Puts the weights of a set's moves, divided, into `out` from place `at` on.
fn put_parts(x: &[u16], set: SetSequences, divisor: u64, out: &mut [u64], at: usize)
    requires { (set.start + set.moves ≤ length x.now) × (at + set.moves ≤ length out.old) }
    ensures { out.new ≡ placed at (list_to set.moves (λ m. item x.now (set.start + m) / divisor)) out.old }
{
    for m in 0..set.moves {
        out[at + m] = part(loaded::number(x, set.start, m) as u64, divisor);
    }
}

// Puts the odds of set `h`, where it is the player's, before whose moves `before` others stand in plan order.
fn put_set(numbers: &[u16], h: usize, player: Player, x: &[u16], before: usize, out: &mut [u64])
    requires { PartsAsked (suc h) (as_player player) numbers.now x.now before out.old }
    ensures { (g : Game) → SetsLoaded g numbers.now → h < g.sets → out.new ≡ placed (before + moves_before g (as_player player) h) (parts_at g (as_player player) x.now h) out.old }
{
    if loaded::owner(numbers, h) == player {
        let set = loaded::set_sequences(numbers, h);
        let divisor = set_divisor(x, set);
        put_parts(x, set, divisor, out, before + set.start - 1);
    }
}

// Puts the odds of all sets of the player.
fn put_player(
    numbers: &[u16],
    sets: usize,
    player: Player,
    x: &[u16],
    before: usize,
    out: &mut [u64],
)
    requires { PartsAsked sets (as_player player) numbers.now x.now before out.old }
    ensures { (g : Game) → SetsLoaded g numbers.now → sets ≡ g.sets → out.new ≡ placed before (player_parts g (as_player player) x.now) out.old }
{
    for h in 0..sets {
        put_set(numbers, h, player, x, before, out);
    }
}

// Puts the odds of a loaded game's sets, of both players' weights: player 1's, and player 2's after them.
pub fn put(numbers: &[u16], counts: Counts, x: &[u16], y: &[u16], out: &mut [u64])
    requires { LoadedIn counts numbers.now × (count_limit ≤ length x.now) × (count_limit ≤ length y.now) × (count_limit ≤ length out.old) }
    ensures { (g : Game) → NumbersLoaded g counts numbers.now → out.new ≡ placed 0 (player_parts g one x.now ++ player_parts g two y.now) out.old }
{
    let sets = counts.sets;
    let moves1 = counts.sequences1 - 1;
    put_player(numbers, sets, Player::One, x, 0, out);
    put_player(numbers, sets, Player::Two, y, moves1, out);
}
