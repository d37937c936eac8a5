// The game writer: refusals 17 and 18, then the header, the set entries and the node records.
#![tactic(auto)]

ghost use Rattle.std.specs.Prelude.{◌≡◌, true, ◌+◌, ◌*◌, ◌/◌, ◌≤◌, ◌<◌, length};
ghost use Rattle.algebra.specs.Arrays.{placed};
ghost use Rattle.algebra.specs.Bounded.{join_to};
ghost use Rattle.model.specs.Bits.{pack};
ghost use Rattle.model.specs.Writing.{set_bits, node_bits, game_bytes, game_fields_fit};
ghost use Rattle.model.specs.Call.{outcome};
ghost use Rattle.model.specs.Calls.WriteGame.{write_game_of};
ghost use Rattle.model.specs.Exported.{same};
ghost use Rattle.checks.specs.Answers.{answered};
ghost use Rattle.records.specs.Records.{header_with};
ghost use Rattle.fitting.specs.GameLists.{fields_of_lists, SetsFit, NodesFit};
ghost use Rattle.game_writer.specs.Nodes.{payload_of, node_of};

use checks::Refusal;
use fitting::GameLists;
use records::{Header, Kind, NodeRecord, Payload, SetEntry};

// The set entries of lists that fit.
fn put_sets(lists: &GameLists<'_>, out: &mut [u8])
    requires { SetsFit (fields_of_lists lists.now) × (5 + length lists.now.set_players.now ≤ length out.old) }
    ensures { out.new ≡ placed 5 (pack (join_to (length lists.now.set_players.now) (set_bits (fields_of_lists lists.now)))) out.old }
{
    for h in 0..lists.set_players.len() {
        let entry = SetEntry {
            player: lists.set_players[h],
            moves: bits::index(lists.set_moves[h]),
        };
        entry.put(out, h);
    }
}

// The payload of node `n` of lists that fit.
fn payload_at(lists: &GameLists<'_>, n: usize) -> Payload
    requires { (n < length lists.now.kinds.now) × NodesFit (fields_of_lists lists.now) }
    ensures { result ≡ payload_of (fields_of_lists lists.now) n }
{
    match Kind::from(lists.kinds[n]) {
        Kind::Leaf => Payload::Leaf {
            payoff1: fitting::narrow(lists.payoffs1[n]),
            payoff2: fitting::narrow(lists.payoffs2[n]),
        },
        Kind::Decision => Payload::Decision {
            set: bits::index(lists.node_sets[n]),
            padding: 0,
        },
        Kind::Chance => Payload::Chance {
            moves: bits::index(lists.chance_moves[n]),
            padding: 0,
        },
        Kind::Unknown => Payload::Unknown {
            kind: lists.kinds[n],
            moves: bits::index(lists.chance_moves[n]),
            padding: 0,
        },
    }
}

// Node `n` of lists that fit.
fn node_at(lists: &GameLists<'_>, n: usize) -> NodeRecord
    requires { (n < length lists.now.kinds.now) × NodesFit (fields_of_lists lists.now) }
    ensures { result ≡ node_of (fields_of_lists lists.now) n }
{
    NodeRecord {
        parent: bits::index(lists.parents[n]),
        place: bits::index(lists.moves[n]),
        weight: lists.weights[n],
        payload: payload_at(lists, n),
    }
}

// The node records of lists that fit, from bit `records` on.
fn put_nodes(lists: &GameLists<'_>, out: &mut [u8], records: usize)
    requires { NodesFit (fields_of_lists lists.now) × (records ≡ 8 * (records / 8)) × (records < 33000) × (records / 8 + 8 * length lists.now.kinds.now ≤ length out.old) }
    ensures { out.new ≡ placed (records / 8) (pack (join_to (length lists.now.kinds.now) (node_bits (fields_of_lists lists.now)))) out.old }
{
    for n in 0..lists.kinds.len() {
        node_at(lists, n).put(out, records, n);
    }
}

// The header, the set entries and the node records.
fn put_game(header: Header, lists: &GameLists<'_>, out: &mut [u8])
    requires { (header ≡ header_with (length lists.now.kinds.now) (length lists.now.set_players.now) lists.now.root_weight) × (game_fields_fit (fields_of_lists lists.now) ≡ true) × (5 + length lists.now.set_players.now + 8 * length lists.now.kinds.now ≤ length out.old) }
    ensures { out.new ≡ placed 0 (game_bytes (fields_of_lists lists.now)) out.old }
{
    header.put(out);
    put_sets(lists, out);
    put_nodes(lists, out, header.records);
}

// Writes a game file.
pub fn write(lists: &GameLists<'_>, out: &mut [u8]) -> Result<usize, Refusal>
    ensures { outcome (answered same result) (out.new, tt) ≡ write_game_of (fields_of_lists lists.now) out.old }
{
    checks::check(Refusal::Number, lists.fit())?;
    let header = Header::new(
        lists.kinds.len(),
        lists.set_players.len(),
        lists.root_weight,
    );
    let size = header.file_bytes();
    checks::has_room(size, out.len())?;
    put_game(header, lists, out);
    Ok(size)
}
