// The check and the fields of a game file as numbers and slices alone, for the exports: the refusal is the result, 0 is none; what is lent for a result
// keeps what it held where the call refuses.
#![tactic(auto)]

ghost use Rattle.std.specs.Prelude.{◌≡◌};
ghost use Rattle.model.specs.Exported.{none, same, exported, leaves};
ghost use Rattle.model.specs.Calls.CheckGame.{counts, check_game_of};
ghost use Rattle.model.specs.Calls.GameFields as Fields;
ghost use Rattle.columns.specs.Buffers.{held, SameBuffers};

use columns::GameBuffers;

// N, H and D0 go to the lent numbers.
pub fn check_game(game: &[u8], nodes: &mut u64, sets: &mut u64, root_weight: &mut u64) -> u64
    ensures { leaves result (counts nodes.new sets.new root_weight.new) tt ≡ exported same (counts nodes.old sets.old root_weight.old) (check_game_of game.now) }
{
    match lookups::check_game(game) {
        Ok(counts) => {
            *nodes = counts.nodes;
            *sets = counts.sets;
            *root_weight = counts.root_weight;
            0
        }
        Err(refusal) => refusal.number(),
    }
}

// Each field goes to its buffer.
pub fn game_fields(game: &[u8], buffers: &mut GameBuffers<'_>) -> u64
    ensures call { leaves result tt (Fields.lists (held buffers.new)) ≡ exported none tt (Fields.game_fields_of game.now (Fields.lists (held buffers.old))) }
    ensures same { SameBuffers buffers.old buffers.new }
{
    let answer = fields::game_fields(game, buffers);
    checks::number(answer)
}
