// Own sequences by the numbers of their last moves, and check 13.
ghost use Rattle.std.specs.Prelude.{◌≡◌, ◌+◌, ◌<◌};
ghost use Rattle.algebra.specs.Sections.{Held, Apart};
ghost use Rattle.model.specs.Game.{Game};
ghost use Rattle.model.specs.Sequences.{leading_number};
ghost use Rattle.model.specs.Table.{own_number};
ghost use Rattle.model.specs.GameChecks.{perfect_recall_of};
ghost use Rattle.checks.specs.declared.Refusal.TheVariants.{Recall};
ghost use Rattle.checks.specs.Answers.{checked_of};
ghost use Rattle.loaded.specs.Sections.{section_room, own_section_of};
ghost use Rattle.loaded.specs.Players.{as_player};
ghost use Rattle.sequences.specs.Sets.{Numberable};
ghost use Rattle.sequences.specs.Recall.{OwnStored, OwnFilled, recall_test};

use super::sets;
use checks::Refusal;
use loaded::{Player, Section};
use records::NodeRecord;

// The last own move of a player on the walk from node `n` to the root, by the number of the sequence that it ends; 0 where there is none.
// It is the one at the parent, or else the parent's. Those of the first `stored` nodes are known: the walk ends at the first of them that it meets.
pub fn last_own_move(numbers: &[u16], player: Player, stored: usize, n: usize) -> usize
    requires { (g : Game) × (n < g.nodes) × OwnStored g (as_player player) stored numbers.now }
    ensures { (g : Game) → n < g.nodes → OwnStored g (as_player player) stored numbers.now → result ≡ own_number g (as_player player) n }
{
    if n == NodeRecord::ROOT {
        return 0;
    }
    let parent = loaded::number(numbers, Section::PARENT, n);
    if let Some(set) = sets::set_of(numbers, parent) {
        if loaded::owner(numbers, set) == player {
            let start = loaded::number(numbers, Section::START, set);
            let place = loaded::number(numbers, Section::PLACE, n);
            return start + place;
        }
    }
    if parent < stored {
        return loaded::number(numbers, player.own_section(), parent);
    }
    last_own_move(numbers, player, stored, parent)
}

// The number of a player's own sequence to each node: with those of all earlier nodes stored, one step each.
pub fn own_numbers(numbers: &mut [u16], nodes: usize, player: Player)
    requires { (g : Game) × (nodes ≡ g.nodes) × Numberable g × OwnStored g (as_player player) 0 numbers.old }
    ensures { ((g : Game) → nodes ≡ g.nodes → OwnStored g (as_player player) 0 numbers.old → Held (own_section_of (as_player player)) (own_number g (as_player player)) g.nodes numbers.new) × Apart (own_section_of (as_player player)) (own_section_of (as_player player) + section_room) numbers.old numbers.new }
{
    let section = player.own_section();
    for n in 0..nodes {
        let own = last_own_move(numbers, player, n, n);
        loaded::put(numbers, section, n, own);
    }
}

// The number of the sequence that leads to set `h`: that of its player's own sequence to its first node.
pub fn lead_of(numbers: &[u16], h: usize) -> usize
    requires { (g : Game) × (h < g.sets) × OwnFilled g numbers.now }
    ensures { (result < 65536) × ((g : Game) → h < g.sets → OwnFilled g numbers.now → result ≡ leading_number g h) }
{
    let player = loaded::owner(numbers, h);
    let first = loaded::number(numbers, Section::FIRST_NODE, h);
    loaded::number(numbers, player.own_section(), first)
}

// Whether node `n`, where it is a decision, has the own sequence number of its set's first node, by the set's player.
fn recalls(numbers: &[u16], n: usize) -> bool
    requires { (g : Game) × (n < g.nodes) × OwnFilled g numbers.now }
    ensures { (g : Game) → n < g.nodes → OwnFilled g numbers.now → result ≡ recall_test g n }
{
    let Some(set) = sets::set_of(numbers, n) else {
        return true;
    };
    let player = loaded::owner(numbers, set);
    let own = loaded::number(numbers, player.own_section(), n);
    let lead = lead_of(numbers, set);
    own == lead
}

// Check 13.
pub fn perfect_recall(numbers: &[u16], nodes: usize) -> Result<(), Refusal>
    requires { (g : Game) × (nodes ≡ g.nodes) × OwnFilled g numbers.now }
    ensures { (g : Game) → nodes ≡ g.nodes → OwnFilled g numbers.now → result ≡ checked_of Recall (perfect_recall_of g) }
{
    for n in 0..nodes {
        if !recalls(numbers, n) {
            return Err(Refusal::Recall);
        }
    }
    Ok(())
}
