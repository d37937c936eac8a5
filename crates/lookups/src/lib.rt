// A game file: its check, and look-ups in it. Any bytes and any numbers are taken, nothing is asked of the caller.
#![tactic(auto)]

ghost use Rattle.std.specs.Prelude.{◌≡◌};
ghost use Rattle.model.specs.Calls.CheckGame.{check_game_of};
ghost use Rattle.model.specs.Calls.SetEntry.{set_entry_of};
ghost use Rattle.model.specs.Calls.NodeRecord.{node_record_of};
ghost use Rattle.model.specs.Calls.OwnSequence.{own_sequence_of};
ghost use Rattle.checks.specs.Answers.{answered};
ghost use Rattle.lookups.specs.Answers.{game_seen, set_seen, node_seen, sequence_seen};
ghost use Rattle.lookups.specs.Records.{record_read};

use checks::Refusal;
use game::GameCounts;
use loaded::Section;
use records::{NodeRecord, Payload, SetEntry};
use sequences::OwnSequence;

// The entry of an information set: its player, 0 for player 1 and 1 for player 2, and its move count.
#[derive(Clone, Copy, Debug, PartialEq, Eq)]
pub struct SetFields {
    pub player: u64,
    pub moves: u64,
}

// Where a node is in the tree, and its chance weight; `place` is its move at the parent.
#[derive(Clone, Copy, Debug, PartialEq, Eq)]
pub struct Place {
    pub parent: u64,
    pub place: u64,
    pub weight: u64,
}

// The record of a node, by its kind.
#[derive(Clone, Copy, Debug, PartialEq, Eq)]
pub enum Node {
    Leaf {
        at: Place,
        payoff1: i16,
        payoff2: i16,
    },
    Decision {
        at: Place,
        set: u64,
    },
    Chance {
        at: Place,
        moves: u64,
    },
}

// Checks a game file: N, H and D0 of an accepted one, or the first refusal, 1 to 13.
pub fn check_game(game: &[u8]) -> Result<GameCounts, Refusal>
    ensures { answered game_seen result ≡ (check_game_of game.now).answer }
{
    let header = game::check(game)?;
    Ok(GameCounts {
        nodes: header.nodes as u64,
        sets: header.sets as u64,
        root_weight: header.root_weight,
    })
}

// The entry of set `number`; a refusal is 1 to 13, or 17.
pub fn set_entry(game: &[u8], number: u64) -> Result<SetFields, Refusal>
    ensures { answered set_seen result ≡ (set_entry_of game.now number).answer }
{
    let header = game::check(game)?;
    checks::in_game(number, header.sets as u64)?;
    let entry = SetEntry::read(game, bits::index(number));
    Ok(SetFields {
        player: entry.player,
        moves: entry.moves as u64,
    })
}

// A node's record, by its kind. No node of an accepted game is of a kind past the three.
#[tactic(auto, unfolding(records::specs::Records::kind_number, records::specs::Records::kind_in, records::specs::Records::payoff1_in, records::specs::Records::payoff2_in, records::specs::Records::set_in, records::specs::Records::moves_in))]
fn node_by_kind(node: NodeRecord) -> Node
    ensures { node_seen result ≡ record_read node }
{
    let at = Place {
        parent: node.parent as u64,
        place: node.place as u64,
        weight: node.weight,
    };
    match node.payload {
        Payload::Leaf { payoff1, payoff2 } => Node::Leaf {
            at,
            payoff1,
            payoff2,
        },
        Payload::Decision { set, .. } => Node::Decision {
            at,
            set: set as u64,
        },
        Payload::Chance { moves, .. } => Node::Chance {
            at,
            moves: moves as u64,
        },
        Payload::Unknown { .. } => Node::Chance { at, moves: 0 },
    }
}

// The record of node `number`; a refusal is 1 to 13, or 17.
pub fn node_record(game: &[u8], number: u64) -> Result<Node, Refusal>
    ensures { answered node_seen result ≡ (node_record_of game.now number).answer }
{
    let header = game::check(game)?;
    checks::in_game(number, header.nodes as u64)?;
    let node = NodeRecord::read(game, header.records, bits::index(number));
    Ok(node_by_kind(node))
}

// The own sequence of its player that leads to set `number`, by its number among that player's sequences; a refusal is 1 to 13, or 17.
pub fn own_sequence(game: &[u8], number: u64) -> Result<OwnSequence, Refusal>
    ensures { answered sequence_seen result ≡ (own_sequence_of game.now number).answer }
{
    let mut numbers = [0u16; Section::NUMBERS];
    let mut payoffs = [0i16; Section::PAYOFFS];
    let counts = game::load(game, &mut numbers, &mut payoffs)?;
    checks::in_game(number, counts.sets as u64)?;
    let sequence = sequences::lookup::own_sequence(&numbers, bits::index(number));
    Ok(sequence)
}
