// The writers as numbers and slices alone, for the exports: the refusal is the result, 0 is none; what is lent for a result
// keeps what it held where the call refuses.
#![tactic(auto)]

ghost use Rattle.std.specs.Prelude.{◌≡◌};
ghost use Rattle.model.specs.Exported.{same, exported, leaves};
ghost use Rattle.model.specs.Calls.WriteGame.{write_game_of};
ghost use Rattle.model.specs.Calls.WritePlan.{write_plan_of};
ghost use Rattle.fitting.specs.GameLists.{fields_of_lists};

use fitting::GameLists;

// The file goes to the buffer, its length to the lent number.
pub fn write_plan(d1: u64, d2: u64, weights: &[u64], out: &mut [u8], size: &mut u64) -> u64
    ensures { leaves result size.new (out.new, tt) ≡ exported same size.old (write_plan_of d1 d2 weights.now out.old) }
{
    match plan_writer::write(d1, d2, weights, out) {
        Ok(written) => {
            *size = written as u64;
            0
        }
        Err(refusal) => refusal.number(),
    }
}

// The file goes to the buffer, its length to the lent number.
pub fn write_game(lists: &GameLists<'_>, out: &mut [u8], size: &mut u64) -> u64
    ensures { leaves result size.new (out.new, tt) ≡ exported same size.old (write_game_of (fields_of_lists lists.now) out.old) }
{
    match game_writer::write(lists, out) {
        Ok(bytes) => {
            *size = bytes as u64;
            0
        }
        Err(refusal) => refusal.number(),
    }
}
