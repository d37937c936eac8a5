// Checks 7 and 8: each node by itself.
ghost use Rattle.std.specs.Prelude.{◌≡◌, ◌+◌, ◌<◌, T, length};
ghost use Rattle.algebra.specs.Arrays.{item};
ghost use Rattle.model.specs.Game.{Game, node_moves};
ghost use Rattle.model.specs.GameChecks.{payloads_in_range_of, attached, nodes_attached_of};
ghost use Rattle.checks.specs.declared.Refusal.TheVariants.{PayloadRange, Attachment};
ghost use Rattle.checks.specs.Answers.{checked_of};
ghost use Rattle.records.specs.Records.{kind_of, kind_number};
ghost use Rattle.loaded.specs.Sections.{kind_section};
ghost use Rattle.loaded.specs.Loaded.{Decoded};
ghost use Rattle.tree.specs.Games.{SetThere};
ghost use Rattle.tree.specs.Tests.{in_range};

use checks::Refusal;
use loaded::Section;
use records::{Kind, NodeRecord};

// The kind of node `n`.
pub(crate) fn kind(numbers: &[u16], n: usize) -> Kind
    requires { kind_section + n < length numbers.now }
    ensures { result ≡ kind_of (item numbers.now (kind_section + n)) }
{
    Kind::from(loaded::number(numbers, Section::KIND, n) as u64)
}

// How many moves node `n` has: its set's, its own, or none.
pub fn move_count(numbers: &[u16], n: usize) -> usize
    requires { (g : Game) × Decoded g numbers.now × SetThere g n }
    ensures { (g : Game) → Decoded g numbers.now → SetThere g n → result ≡ node_moves g n }
{
    let payload = loaded::number(numbers, Section::PAYLOAD, n);
    match kind(numbers, n) {
        Kind::Decision => loaded::number(numbers, Section::MOVES, payload),
        _ => payload,
    }
}

// Whether a payload is in range: a decision's set exists, a chance node's move count is 1 to 64.
#[tactic(auto, unfolding(crate::specs::Tests::in_range, algebra::specs::Bounded::implies, records::specs::Records::kind_number))]
fn in_range(kind: Kind, payload: usize, sets: usize) -> bool
    ensures { result ≡ in_range (kind_number kind) payload sets }
{
    match kind {
        Kind::Decision => payload < sets,
        Kind::Chance => records::is_move_count(payload),
        Kind::Leaf | Kind::Unknown => true,
    }
}

// Check 7.
pub fn payloads_in_range(numbers: &[u16], nodes: usize, sets: usize) -> Result<(), Refusal>
    requires { (g : Game) × (nodes ≡ g.nodes) × (sets ≡ g.sets) × Decoded g numbers.now }
    ensures { (g : Game) → nodes ≡ g.nodes → sets ≡ g.sets → Decoded g numbers.now → result ≡ checked_of PayloadRange (payloads_in_range_of g) }
{
    for n in 0..nodes {
        let payload = loaded::number(numbers, Section::PAYLOAD, n);
        if !in_range(kind(numbers, n), payload, sets) {
            return Err(Refusal::PayloadRange);
        }
    }
    Ok(())
}

// Whether node `n` hangs where it must: the root at 0, any other at a move of an earlier node. A leaf has no move.
fn is_attached(numbers: &[u16], n: usize) -> bool
    requires { (g : Game) × (n < g.nodes) × Decoded g numbers.now × T (payloads_in_range_of g) }
    ensures { (g : Game) → n < g.nodes → Decoded g numbers.now → T (payloads_in_range_of g) → result ≡ attached g n }
{
    let parent = loaded::number(numbers, Section::PARENT, n);
    let place = loaded::number(numbers, Section::PLACE, n);
    if n == NodeRecord::ROOT {
        return parent == 0 && place == 0;
    }
    if n <= parent {
        return false;
    }
    place < move_count(numbers, parent)
}

// Check 8.
pub fn nodes_attached(numbers: &[u16], nodes: usize) -> Result<(), Refusal>
    requires { (g : Game) × (nodes ≡ g.nodes) × Decoded g numbers.now × T (payloads_in_range_of g) }
    ensures { (g : Game) → nodes ≡ g.nodes → Decoded g numbers.now → T (payloads_in_range_of g) → result ≡ checked_of Attachment (nodes_attached_of g) }
{
    for n in 0..nodes {
        if !is_attached(numbers, n) {
            return Err(Refusal::Attachment);
        }
    }
    Ok(())
}
