// The own sequence that leads to a set.
ghost use Rattle.std.specs.Prelude.{◌≡◌, ◌<◌};
ghost use Rattle.model.specs.Game.{Game};
ghost use Rattle.model.specs.Sequences.{leading_number};
ghost use Rattle.loaded.specs.declared.Counts.{Counts};
ghost use Rattle.loaded.specs.Loaded.{NumbersLoaded};

use super::{OwnSequence, recall};
use loaded::Section;

// The own sequence that leads to set `h` of a loaded game: its last move is the last own move of the set's player before the set's first node.
pub fn own_sequence(numbers: &[u16], h: usize) -> OwnSequence
    requires { (g : Game) × (c : Counts) × (h < g.sets) × NumbersLoaded g c numbers.now }
    ensures { (g : Game) (c : Counts) → h < g.sets → NumbersLoaded g c numbers.now → result.number ≡ leading_number g h }
{
    let player = loaded::owner(numbers, h);
    let first = loaded::number(numbers, Section::FIRST_NODE, h);
    let number = recall::last_own_move(numbers, player, 0, first);
    OwnSequence {
        number: number as u64,
    }
}
