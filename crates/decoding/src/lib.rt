// The set entries and the node records of a game file, each decoded once into the sections of a loaded game. Checks 5 and 6 are made in
// the same passes.
#![tactic(auto)]

ghost use Rattle.std.specs.Prelude.{◌≡◌, ◌≤◌, ◌<◌, length};
ghost use Rattle.model.specs.Game.{game_of};
ghost use Rattle.records.specs.Records.{header_of};
ghost use Rattle.loaded.specs.Sections.{section_room, numbers_room, payoffs_room};
ghost use Rattle.decoding.specs.Puts.{entry_put, kind_put, node_put, payload_of_kind, payoffs_put, leaf_put, next_place};
ghost use Rattle.decoding.specs.Tests.{well_formed_of};
ghost use Rattle.decoding.specs.Decoding.{SetsLoaded, NodesLoaded};

use checks::Refusal;
use loaded::Section;
use records::{Header, NodeRecord, Payload, SetEntry};

// Puts the entry of set `h`.
fn put_entry(entry: SetEntry, h: usize, numbers: &mut [u16])
    requires { (entry.player < 65536) × (entry.moves < 65536) × (h < section_room) × (numbers_room ≤ length numbers.old) }
    ensures { numbers.new ≡ entry_put entry h numbers.old }
{
    let player = entry.player as usize;
    let moves = entry.moves;
    loaded::put(numbers, Section::PLAYER, h, player);
    loaded::put(numbers, Section::MOVES, h, moves);
}

// Check 5, and the players and move counts of the sets.
pub fn load_sets(bytes: &[u8], sets: usize, numbers: &mut [u16]) -> Result<(), Refusal>
    requires { (sets ≡ (game_of bytes.now).sets) × (numbers_room ≤ length numbers.old) }
    ensures { SetsLoaded (game_of bytes.now) result numbers.old numbers.new }
{
    for h in 0..sets {
        let entry = SetEntry::read(bytes, h);
        if !records::is_move_count(entry.moves) {
            return Err(Refusal::SetMoves);
        }
        put_entry(entry, h, numbers);
    }
    Ok(())
}

// Whether a record's payload is of a kind that nodes have and its padding is zero.
#[tactic(auto, unfolding(crate::specs::Tests::well_formed_of, records::specs::Records::kind_in, records::specs::Records::kind_number, records::specs::Records::padding_in))]
fn well_formed(node: NodeRecord) -> bool
    ensures { result ≡ well_formed_of node }
{
    match node.payload {
        Payload::Leaf { .. } => true,
        Payload::Decision { padding, .. } | Payload::Chance { padding, .. } => padding == 0,
        Payload::Unknown { .. } => false,
    }
}

// A decision's set, or a chance node's move count; 0 at a leaf.
#[tactic(auto, unfolding(crate::specs::Puts::payload_of_kind, records::specs::Records::kind_in, records::specs::Records::kind_number, records::specs::Records::set_in, records::specs::Records::moves_in))]
fn payload_number(node: NodeRecord) -> usize
    ensures { result ≡ payload_of_kind node }
{
    match node.payload {
        Payload::Decision { set, .. } => set,
        Payload::Chance { moves, .. } => moves,
        Payload::Leaf { .. } | Payload::Unknown { .. } => 0,
    }
}

// Puts the record of node `n`, without the payoffs.
fn put_node(node: NodeRecord, n: usize, numbers: &mut [u16])
    requires { (kind_put node < 65536) × (node.parent < 65536) × (node.place < 65536) × (node.weight < 65536) × (payload_of_kind node < 65536) × (n < section_room) × (numbers_room ≤ length numbers.old) }
    ensures { numbers.new ≡ node_put node n numbers.old }
{
    let kind = node.payload.kind().number() as usize;
    loaded::put(numbers, Section::KIND, n, kind);
    loaded::put(numbers, Section::PARENT, n, node.parent);
    loaded::put(numbers, Section::PLACE, n, node.place);
    loaded::put(numbers, Section::WEIGHT, n, node.weight as usize);
    loaded::put(numbers, Section::PAYLOAD, n, payload_number(node));
}

// Puts both payoffs of the leaf at place `at`.
fn put_payoffs(payoff1: i16, payoff2: i16, at: usize, payoffs: &mut [i16])
    requires { (at < section_room) × (payoffs_room ≤ length payoffs.old) }
    ensures { payoffs.new ≡ payoffs_put payoff1 payoff2 at payoffs.old }
{
    loaded::put_payoff(payoffs, Section::PAYOFFS1, at, payoff1);
    loaded::put_payoff(payoffs, Section::PAYOFFS2, at, payoff2);
}

// Puts the payoffs of a node that is a leaf at place `at`; the next place that is free.
#[tactic(auto, unfolding(crate::specs::Puts::leaf_put, crate::specs::Puts::next_place, records::specs::Records::kind_in, records::specs::Records::kind_number, records::specs::Records::payoff1_in, records::specs::Records::payoff2_in))]
fn put_leaf(node: NodeRecord, at: usize, payoffs: &mut [i16]) -> usize
    requires { (at < section_room) × (payoffs_room ≤ length payoffs.old) }
    ensures { (result ≡ next_place node at) × (payoffs.new ≡ leaf_put node at payoffs.old) }
{
    match node.payload {
        Payload::Leaf { payoff1, payoff2 } => {
            put_payoffs(payoff1, payoff2, at, payoffs);
            at + 1
        }
        Payload::Decision { .. } | Payload::Chance { .. } | Payload::Unknown { .. } => at,
    }
}

// Check 6, the node records without their payoffs, and each player's payoffs by leaf; how many of the nodes are leaves.
pub fn load_nodes(
    bytes: &[u8],
    header: Header,
    numbers: &mut [u16],
    payoffs: &mut [i16],
) -> Result<usize, Refusal>
    requires { (header ≡ header_of bytes.now) × (numbers_room ≤ length numbers.old) × (payoffs_room ≤ length payoffs.old) }
    ensures { NodesLoaded bytes.now result numbers.old numbers.new payoffs.new }
{
    let records = header.records;
    let nodes = header.nodes;
    let mut leaves = 0;
    for n in 0..nodes {
        let node = NodeRecord::read(bytes, records, n);
        if !well_formed(node) {
            return Err(Refusal::NodeForm);
        }
        put_node(node, n, numbers);
        leaves = put_leaf(node, leaves, payoffs);
    }
    Ok(leaves)
}
