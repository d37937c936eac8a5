// All fields of a game into lent buffers, one a field.
#![tactic(auto)]

ghost use Rattle.std.specs.Prelude.{◌≡◌, leb};
ghost use Rattle.std.specs.List.{list_all};
ghost use Rattle.model.specs.Call.{outcome};
ghost use Rattle.model.specs.Calls.GameFields.{lists, game_fields_of};
ghost use Rattle.checks.specs.declared.Refusal.TheVariants.{Room};
ghost use Rattle.checks.specs.Answers.{checked_of, answered};
ghost use Rattle.columns.specs.Buffers.{held, SameBuffers};
ghost use Rattle.fields.specs.Answers.{fields_seen};
ghost use Rattle.fields.specs.Rooms.{roomy};

use checks::Refusal;
use columns::GameBuffers;
use game::GameCounts;

// Whether each of some buffers has room for `size` entries, by their lengths.
fn each_has_room(size: usize, rooms: &[usize]) -> bool
    ensures { result ≡ list_all (λ room. leb size room) rooms.now }
{
    rooms.iter().all(|&room| checks::room_and(size, room, true))
}

// Check 18: whether the sets' buffers have room for `h` entries and the nodes' for `n`.
fn has_room(h: usize, n: usize, buffers: &GameBuffers<'_>) -> Result<(), Refusal>
    ensures { result ≡ checked_of Room (roomy h n (held buffers.now)) }
{
    let of_sets = [buffers.set_players.len(), buffers.set_moves.len()];
    let of_nodes = [
        buffers.kinds.len(),
        buffers.parents.len(),
        buffers.moves.len(),
        buffers.weights.len(),
        buffers.node_sets.len(),
        buffers.chance_moves.len(),
        buffers.payoffs1.len(),
        buffers.payoffs2.len(),
    ];
    let ok = each_has_room(h, &of_sets) && each_has_room(n, &of_nodes);
    checks::check(Refusal::Room, ok)
}

// All fields of a game, each into its buffer: by set the player (0 is player 1) and the move count; by node the kind, the parent, the move there,
// the chance weight, a decision's set, a chance node's move count and a leaf's two payoffs. What a kind lacks is 0.
// N, H and D0 are given; a refusal is 1 to 13, or 18.
pub fn game_fields(game: &[u8], buffers: &mut GameBuffers<'_>) -> Result<GameCounts, Refusal>
    ensures call { outcome (answered fields_seen result) (lists (held buffers.new)) ≡ game_fields_of game.now (lists (held buffers.old)) }
    ensures same { SameBuffers buffers.old buffers.new }
{
    let header = game::check(game)?;
    has_room(header.sets, header.nodes, buffers)?;
    buffers.fill_all(game, header);
    Ok(GameCounts {
        nodes: header.nodes as u64,
        sets: header.sets as u64,
        root_weight: header.root_weight,
    })
}
