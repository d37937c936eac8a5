// All fields of a game file, one list a field.
#![tactic(auto)]

ghost use Rattle.std.specs.Prelude.{◌≡◌, ◌≤◌, ◌<◌, length, set};
ghost use Rattle.algebra.specs.Arrays.{over};
ghost use Rattle.model.specs.Game.{game_of};
ghost use Rattle.model.specs.Writing.{player_field};
ghost use Rattle.records.specs.Records.{Framed, payoff1_in, payoff2_in};
ghost use Rattle.columns.specs.Columns.{FieldsFit, filled};
ghost use Rattle.columns.specs.Buffers.{held, SameBuffers, NodeFits, with_node, with_nodes};

use records::{Header, NodeRecord, Payload, SetEntry};

// A buffer for each field of a game, lent for it.
#[derive(Drop)]
pub struct GameBuffers<'a> {
    pub set_players: &'a mut [u64],
    pub set_moves: &'a mut [u64],
    pub kinds: &'a mut [u64],
    pub parents: &'a mut [u64],
    pub moves: &'a mut [u64],
    pub weights: &'a mut [u64],
    pub node_sets: &'a mut [u64],
    pub chance_moves: &'a mut [u64],
    pub payoffs1: &'a mut [i64],
    pub payoffs2: &'a mut [i64],
}

// The player and the move count of each set, in one pass.
fn set_columns(bytes: &[u8], sets: usize, players: &mut [u64], moves: &mut [u64])
    requires { (sets ≡ (game_of bytes.now).sets) × (sets ≤ length players.old) × (sets ≤ length moves.old) }
    ensures { (players.new ≡ over (player_field (game_of bytes.now)) (game_of bytes.now).sets players.old) × (moves.new ≡ over (game_of bytes.now).set_moves (game_of bytes.now).sets moves.old) }
{
    for h in 0..sets {
        let entry = SetEntry::read(bytes, h);
        players[h] = entry.player;
        moves[h] = entry.moves as u64;
    }
}

// The payoffs of node `n` into place `n` of their lists.
fn put_payoffs(payload: Payload, n: usize, payoffs1: &mut [i64], payoffs2: &mut [i64])
    requires { (n < length payoffs1.old) × (n < length payoffs2.old) }
    ensures { (payoffs1.new ≡ set payoffs1.old n (payoff1_in payload)) × (payoffs2.new ≡ set payoffs2.old n (payoff2_in payload)) }
{
    let (payoff1, payoff2) = payload.payoffs();
    payoffs1[n] = i64::from(payoff1);
    payoffs2[n] = i64::from(payoff2);
}

impl<'a> GameBuffers<'a> {
    // The fields of node `n` into place `n` of each list.
    fn put_node(&mut self, node: NodeRecord, n: usize)
        requires { NodeFits n (held self.old) }
        ensures fields { held self.new ≡ with_node node n (held self.old) }
        ensures same { SameBuffers self.old self.new }
    {
        self.kinds[n] = node.payload.kind().number();
        self.parents[n] = node.parent as u64;
        self.moves[n] = node.place as u64;
        self.weights[n] = node.weight;
        self.node_sets[n] = node.payload.set() as u64;
        self.chance_moves[n] = node.payload.moves() as u64;
        put_payoffs(node.payload, n, self.payoffs1, self.payoffs2);
    }

    // Every field of each node, in one pass over the records; 0 where a node's kind lacks a number.
    fn node_columns(&mut self, bytes: &[u8], header: Header)
        requires { Framed bytes.now header.records header.nodes × FieldsFit header.sets header.nodes (held self.old) }
        ensures fields { held self.new ≡ with_nodes (game_of bytes.now) (held self.old) }
        ensures same { SameBuffers self.old self.new }
    {
        for n in 0..header.nodes {
            self.put_node(NodeRecord::read(bytes, header.records, n), n);
        }
    }

    // Every column into its buffer.
    pub fn fill_all(&mut self, bytes: &[u8], header: Header)
        requires { Framed bytes.now header.records header.nodes × (header.sets ≡ (game_of bytes.now).sets) × FieldsFit header.sets header.nodes (held self.old) }
        ensures fields { held self.new ≡ filled (game_of bytes.now) (held self.old) }
        ensures same { SameBuffers self.old self.new }
    {
        set_columns(bytes, header.sets, self.set_players, self.set_moves);
        self.node_columns(bytes, header);
    }
}
