// The fields of a plan file as numbers and slices alone, for the exports: the refusal is the result, 0 is none; what is lent for a result
// keeps what it held where the call refuses.
#![tactic(auto)]

ghost use Rattle.std.specs.Prelude.{◌≡◌};
ghost use Rattle.model.specs.Exported.{exported, leaves};
ghost use Rattle.model.specs.Calls.CheckPlan.{denominators};
ghost use Rattle.model.specs.Calls.PlanFields.{plan_fields_of, denominators_in};

// D1 and D2 go to the lent numbers, the weights to the buffer.
pub fn plan_fields(game: &[u8], plan: &[u8], d1: &mut u64, d2: &mut u64, weights: &mut [u64]) -> u64
    ensures { leaves result (denominators d1.new d2.new) (weights.new, tt) ≡ exported denominators_in (denominators d1.old d2.old) (plan_fields_of game.now plan.now weights.old) }
{
    match plans::plan_fields(game, plan, weights) {
        Ok(counts) => {
            *d1 = counts.d1;
            *d2 = counts.d2;
            0
        }
        Err(refusal) => refusal.number(),
    }
}
