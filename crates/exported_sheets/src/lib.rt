// The calls of play sheets as slices and a lent number alone, for the exports: the refusal is the result, 0 is none; what is lent for a result
// keeps what it held where the call refuses.
#![tactic(auto)]

ghost use Rattle.std.specs.Prelude.{◌≡◌};
ghost use Rattle.model.specs.Plan.{weight_width, largest_denominator};
ghost use Rattle.model.specs.PlanChecks.{files};
ghost use Rattle.model.specs.Exported.{same, exported, leaves};
ghost use Rattle.model.specs.Calls.PlanFromSheet.{sheet_files, MakesIn, plan_from_sheet_of};
ghost use Rattle.model.specs.Calls.SheetFromPlan.{ReturnsIn, sheet_from_plan_of};

// The plan file goes to the buffer, its length to the lent number.
pub fn plan_from_sheet(game: &[u8], sheet: &[u8], out: &mut [u8], size: &mut u64) -> u64
    ensures equation { leaves result size.new (out.new, tt) ≡ exported same size.old (plan_from_sheet_of game.now sheet.now out.old) }
    ensures promise { MakesIn weight_width largest_denominator (sheet_files game.now sheet.now) out.old (leaves result size.new (out.new, tt)) }
{
    match from_sheet::plan_from_sheet(game, sheet, out) {
        Ok(written) => {
            *size = written as u64;
            0
        }
        Err(refusal) => refusal.number(),
    }
}

// The sheet goes to the buffer, its length to the lent number.
pub fn sheet_from_plan(game: &[u8], plan: &[u8], out: &mut [u8], size: &mut u64) -> u64
    ensures equation { leaves result size.new (out.new, tt) ≡ exported same size.old (sheet_from_plan_of game.now plan.now out.old) }
    ensures promise { ReturnsIn weight_width largest_denominator (files game.now plan.now) out.old (leaves result size.new (out.new, tt)) }
{
    match to_sheet::sheet_from_plan(game, plan, out) {
        Ok(bytes) => {
            *size = bytes as u64;
            0
        }
        Err(refusal) => refusal.number(),
    }
}
