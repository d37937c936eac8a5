// House tolerance as numbers and slices alone, for the exports: the refusal is the result, 0 is none; the lent number
// keeps what it held where the call refuses.
#![tactic(auto)]

ghost use Rattle.std.specs.Prelude.{◌≡◌};
ghost use Rattle.model.specs.Exported.{exported, leaves};
ghost use Rattle.model.specs.Calls.Tolerance.{tolerates, ToleranceMet, passes_number, answer_in};

// 1 goes to the lent number where the pair passes, else 0.
pub fn tolerates(game: &[u8], plan: &[u8], tolerance: u16, passes: &mut u64) -> u64
    ensures equation { leaves result passes.new tt ≡ exported passes_number passes.old (tolerates tolerance game.now plan.now) }
    ensures promise { ToleranceMet tolerance game.now plan.now (answer_in (leaves result passes.new tt)) }
{
    match tolerance::tolerates(game, plan, tolerance) {
        Ok(within) => {
            *passes = u64::from(within);
            0
        }
        Err(refusal) => refusal.number(),
    }
}
