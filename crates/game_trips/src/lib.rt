// Demand 2 on the calls of a game: what is read of an accepted file and written again is the file, and fields whose file is accepted are read back as they were given.
// Any bytes, lists and numbers are taken, nothing is asked of the caller.
#![tactic(auto)]

ghost use Rattle.std.specs.Prelude.{◌≡◌};
ghost use Rattle.model.specs.Call.{outcome};
ghost use Rattle.model.specs.Exported.{same};
ghost use Rattle.model.specs.Calls.GameFields.{lists};
ghost use Rattle.model.specs.Calls.WriteGame.{write_game_of};
ghost use Rattle.model.specs.Calls.RewriteGame.{rewrite_game_of};
ghost use Rattle.model.specs.Calls.RereadGame.{reread_game_of};
ghost use Rattle.checks.specs.Answers.{answered};
ghost use Rattle.columns.specs.Columns.{FieldsFit};
ghost use Rattle.columns.specs.Buffers.{held, SameBuffers};
ghost use Rattle.fields.specs.Answers.{fields_seen};
ghost use Rattle.fitting.specs.GameLists.{fields_of_lists};
ghost use Rattle.game_trips.specs.Fronts.{fronts};

use checks::Refusal;
use columns::GameBuffers;
use fitting::GameLists;
use game::GameCounts;
use records::{Header, NodeRecord};

// Writes the first `h` entries of the sets' buffers and the first `n` of the nodes'.
fn write_fronts(
    root_weight: u64,
    h: usize,
    n: usize,
    buffers: &GameBuffers<'_>,
    out: &mut [u8],
) -> Result<usize, Refusal>
    requires { FieldsFit h n (held buffers.now) }
    ensures { outcome (answered same result) (out.new, tt) ≡ write_game_of (fronts root_weight h n (held buffers.now)) out.old }
{
    let read = GameLists {
        root_weight,
        set_players: &buffers.set_players[..h],
        set_moves: &buffers.set_moves[..h],
        kinds: &buffers.kinds[..n],
        parents: &buffers.parents[..n],
        moves: &buffers.moves[..n],
        weights: &buffers.weights[..n],
        node_sets: &buffers.node_sets[..n],
        chance_moves: &buffers.chance_moves[..n],
        payoffs1: &buffers.payoffs1[..n],
        payoffs2: &buffers.payoffs2[..n],
    };
    game_writer::write(&read, out)
}

// Reads all fields of a game and writes them again: the game file's own bytes.
pub fn rewrite_game(game: &[u8], out: &mut [u8]) -> Result<usize, Refusal>
    ensures { outcome (answered same result) (out.new, tt) ≡ rewrite_game_of game.now out.old }
{
    let mut set_players = [0u64; NodeRecord::NODES];
    let mut set_moves = [0u64; NodeRecord::NODES];
    let mut kinds = [0u64; NodeRecord::NODES];
    let mut parents = [0u64; NodeRecord::NODES];
    let mut moves = [0u64; NodeRecord::NODES];
    let mut weights = [0u64; NodeRecord::NODES];
    let mut node_sets = [0u64; NodeRecord::NODES];
    let mut chance_moves = [0u64; NodeRecord::NODES];
    let mut payoffs1 = [0i64; NodeRecord::NODES];
    let mut payoffs2 = [0i64; NodeRecord::NODES];
    let mut buffers = GameBuffers {
        set_players: &mut set_players,
        set_moves: &mut set_moves,
        kinds: &mut kinds,
        parents: &mut parents,
        moves: &mut moves,
        weights: &mut weights,
        node_sets: &mut node_sets,
        chance_moves: &mut chance_moves,
        payoffs1: &mut payoffs1,
        payoffs2: &mut payoffs2,
    };
    let counts = fields::game_fields(game, &mut buffers)?;
    let h = bits::index(counts.sets);
    let n = bits::index(counts.nodes);
    write_fronts(counts.root_weight, h, n, &buffers, out)
}

// Writes the fields of a game and reads them back: the counts and the very lists that are given.
pub fn reread_game(
    given: &GameLists<'_>,
    buffers: &mut GameBuffers<'_>,
) -> Result<GameCounts, Refusal>
    ensures call { outcome (answered fields_seen result) (lists (held buffers.new)) ≡ reread_game_of (fields_of_lists given.now) (lists (held buffers.old)) }
    ensures same { SameBuffers buffers.old buffers.new }
{
    let mut file = [0u8; Header::LONGEST_FILE];
    let size = game_writer::write(given, &mut file)?;
    fields::game_fields(&file[..size], buffers)
}
