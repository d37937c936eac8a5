// Check 20 of a play sheet: at each set whose own sequence has no zero odds, some move has odds.
#![tactic(auto)]

ghost use Rattle.std.specs.Prelude.{◌≡◌, cond, ◌+◌, ◌≤◌, ◌<◌, length, ltb};
ghost use Rattle.algebra.specs.Arrays.{item};
ghost use Rattle.algebra.specs.Sections.{Held, Apart};
ghost use Rattle.model.specs.Limits.{count_limit};
ghost use Rattle.model.specs.Game.{Game, one, two};
ghost use Rattle.model.specs.Sheet.{Odds, odds_given};
ghost use Rattle.checks.specs.declared.Refusal.TheVariants.{NoOdds};
ghost use Rattle.checks.specs.Answers.{checked_of};
ghost use Rattle.loaded.specs.Players.{as_player};
ghost use Rattle.loaded.specs.Loaded.{NumbersLoaded};
ghost use Rattle.plan.specs.Loaded.{LoadedIn};
ghost use Rattle.sheets.specs.OddsByNumber.{OddsByNumber};
ghost use Rattle.loaded.specs.InOrder.{InOrder};
ghost use Rattle.odds.specs.Marks.{mark_of, player_given_of, SetStands, SetMarked, NextMarked, AllAsked, OrderAsked};

use checks::Refusal;
use loaded::{Counts, Player, SetSequences};
use records::NodeRecord;

// The mark of a sequence with one more move: 0 where that has zero odds, and else the mark of the sequence before it.
fn mark(before: usize, odds: usize) -> usize
    ensures { result ≡ cond (ltb 0 odds) before 0 }
{
    if odds == 0 { 0 } else { before }
}

// Marks the sequences that end in a move of a set.
fn mark_moves(set: SetSequences, x: &[u16], before: usize, marks: &mut [u16])
    requires { (set.start + set.moves ≤ length x.now) × (set.start + set.moves ≤ length marks.old) × (before < 65536) }
    ensures { Held set.start (λ m. cond (ltb 0 (item x.now (set.start + m))) before 0) set.moves marks.new × Apart set.start (set.start + set.moves) marks.old marks.new }
{
    for m in 0..set.moves {
        let marked = mark(before, loaded::number(x, set.start, m));
        loaded::put(marks, set.start, m, marked);
    }
}

// Marks the sequences of a set, and tells whether one of its moves has odds, if need be.
fn set_given(set: SetSequences, x: &[u16], marks: &mut [u16]) -> bool
    requires { SetStands set x.now marks.old }
    ensures { SetMarked set x.now result marks.old marks.new }
{
    let before = slices::item(marks, set.lead);
    mark_moves(set, x, before, marks);
    before == 0 || 0 < plan::moves_total(x, set.start, set.moves)
}

// Whether the set at place `i` of the order passes check 20, where it is the player's; its sequences are marked then.
fn next_given(numbers: &[u16], i: usize, player: Player, x: &[u16], marks: &mut [u16]) -> bool
    requires { OrderAsked i numbers.now x.now marks.old }
    ensures { (g : Game) → (c : Counts) → (odds : Odds) → NumbersLoaded g c numbers.now → i < g.sets → OddsByNumber g (as_player player) odds x.now → InOrder g (as_player player) (mark_of g odds) i marks.old → NextMarked g odds (as_player player) i result marks.new }
{
    match sheets::own_set(numbers, i, player) {
        Some(set) => set_given(set, x, marks),
        None => true,
    }
}

// Check 20 at one player's sets, each after the sets that lead to it.
fn player_given(
    numbers: &[u16],
    sets: usize,
    player: Player,
    x: &[u16],
    marks: &mut [u16],
) -> Result<(), Refusal>
    requires { AllAsked sets numbers.now x.now marks.old }
    ensures { (g : Game) → (c : Counts) → (odds : Odds) → NumbersLoaded g c numbers.now → sets ≡ g.sets → OddsByNumber g (as_player player) odds x.now → result ≡ checked_of NoOdds (player_given_of g odds (as_player player)) }
{
    loaded::put(marks, 0, 0, 1);
    for i in 0..sets {
        if !next_given(numbers, i, player, x, marks) {
            return Err(Refusal::NoOdds);
        }
    }
    Ok(())
}

// Check 20 of both players' odds by sequence number.
pub fn given(numbers: &[u16], counts: Counts, x: &[u16], y: &[u16]) -> Result<(), Refusal>
    requires { LoadedIn counts numbers.now × (count_limit ≤ length x.now) × (count_limit ≤ length y.now) }
    ensures { (g : Game) → (odds : Odds) → NumbersLoaded g counts numbers.now → OddsByNumber g one odds x.now → OddsByNumber g two odds y.now → result ≡ checked_of NoOdds (odds_given g odds) }
{
    let mut marks = [0u16; NodeRecord::NODES];
    let sets = counts.sets;
    player_given(numbers, sets, Player::One, x, &mut marks)?;
    player_given(numbers, sets, Player::Two, y, &mut marks)
}
