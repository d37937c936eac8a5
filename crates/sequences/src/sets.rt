// Information sets: their nodes, the first of each, the numbers of their first sequences and of those that lead to them, and check 12.
ghost use Rattle.std.specs.Prelude.{◌≡◌, ◌+◌, ◌<◌, length};
ghost use Rattle.algebra.specs.Sections.{Held, Apart};
ghost use Rattle.model.specs.Game.{Game, one};
ghost use Rattle.model.specs.Sequences.{first_node, leading_number};
ghost use Rattle.model.specs.GameChecks.{sets_non_empty_of};
ghost use Rattle.checks.specs.declared.Refusal.TheVariants.{EmptySet};
ghost use Rattle.checks.specs.Answers.{checked_of};
ghost use Rattle.loaded.specs.Sections.{payload_section, first_node_section, start_section, own_section_of, lead_section, order_section};
ghost use Rattle.loaded.specs.Rooted.{Rooted};
ghost use Rattle.loaded.specs.Sets.{first_sequence};
ghost use Rattle.loaded.specs.Loaded.{Decoded, RootedIn};
ghost use Rattle.sequences.specs.Sets.{set_of_node, sequence_counts, Numberable};
ghost use Rattle.sequences.specs.Recall.{OwnFilled};

use super::{SequenceCounts, recall};
use checks::Refusal;
use loaded::Section;
use records::Kind;

// The set of node `n`, where it is a decision.
pub(crate) fn set_of(numbers: &[u16], n: usize) -> Option<usize>
    requires { payload_section + n < length numbers.now }
    ensures { (g : Game) → n < g.nodes → Decoded g numbers.now → result ≡ set_of_node g n }
{
    match Kind::from(loaded::number(numbers, Section::KIND, n) as u64) {
        Kind::Decision => Some(loaded::number(numbers, Section::PAYLOAD, n)),
        _ => None,
    }
}

// The first node of each set, by one pass from the last node to the first; N where a set has none.
pub fn first_nodes(numbers: &mut [u16], nodes: usize, sets: usize)
    requires { RootedIn nodes sets numbers.old }
    ensures { ((g : Game) → nodes ≡ g.nodes → sets ≡ g.sets → Decoded g numbers.old → Rooted g → Held first_node_section (first_node g) g.sets numbers.new) × Apart first_node_section start_section numbers.old numbers.new }
{
    loaded::fill(numbers, Section::FIRST_NODE, sets, nodes);
    for n in (0..nodes).rev() {
        if let Some(set) = set_of(numbers, n) {
            loaded::put(numbers, Section::FIRST_NODE, set, n);
        }
    }
}

// Check 12: each set's first node is a node.
pub fn sets_non_empty(numbers: &[u16], nodes: usize, sets: usize) -> Result<(), Refusal>
    requires { RootedIn nodes sets numbers.now }
    ensures { (g : Game) → nodes ≡ g.nodes → sets ≡ g.sets → Held first_node_section (first_node g) g.sets numbers.now → result ≡ checked_of EmptySet (sets_non_empty_of g) }
{
    for h in 0..sets {
        let first = loaded::number(numbers, Section::FIRST_NODE, h);
        if nodes <= first {
            return Err(Refusal::EmptySet);
        }
    }
    Ok(())
}

// The number of the first sequence of each set: 1, and the moves of its player's earlier sets.
// `next` has the number that the next sequence of either player gets: after the last set, how many there are.
pub fn first_sequences(numbers: &mut [u16], sets: usize) -> SequenceCounts
    requires { (g : Game) × (sets ≡ g.sets) × Decoded g numbers.old × Numberable g }
    ensures { ((g : Game) → sets ≡ g.sets → Decoded g numbers.old → (result ≡ sequence_counts g) × Held start_section (first_sequence g) g.sets numbers.new) × Apart start_section (own_section_of one) numbers.old numbers.new }
{
    // Indexed by the player's bit: of a `&mut` that a match on the player picks, the check loses which count it has changed.
    let mut next = [1usize; 2];
    for h in 0..sets {
        let player = loaded::number(numbers, Section::PLAYER, h);
        let moves = loaded::number(numbers, Section::MOVES, h);
        let start = next[player];
        loaded::put(numbers, Section::START, h, start);
        next[player] = start + moves;
    }
    SequenceCounts {
        first: next[0],
        second: next[1],
    }
}

// The number of the sequence that leads to each set.
pub fn leads(numbers: &mut [u16], sets: usize)
    requires { (g : Game) × (sets ≡ g.sets) × OwnFilled g numbers.old }
    ensures { ((g : Game) → sets ≡ g.sets → OwnFilled g numbers.old → Held lead_section (leading_number g) g.sets numbers.new) × Apart lead_section order_section numbers.old numbers.new }
{
    for h in 0..sets {
        let lead = recall::lead_of(numbers, h);
        loaded::put(numbers, Section::LEAD, h, lead);
    }
}
