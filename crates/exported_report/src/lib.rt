// The report and the line of a refusal as numbers and slices alone, for the exports: the refusal is the result, 0 is none; what is lent for a result
// keeps what it held where the call refuses.
#![tactic(auto)]

ghost use Rattle.std.specs.Prelude.{◌≡◌};
ghost use Rattle.model.specs.Exported.{same, exported, leaves};
ghost use Rattle.model.specs.Calls.Report.{report_call};
ghost use Rattle.model.specs.Calls.RefusalLine.{refusal_line_of};

// The text goes to the buffer, its length to the lent number.
pub fn report(game: &[u8], plan: &[u8], out: &mut [u8], size: &mut u64) -> u64
    ensures { leaves result size.new (out.new, tt) ≡ exported same size.old (report_call game.now plan.now out.old) }
{
    match report::reports::report(game, plan, out) {
        Ok(text) => {
            *size = text as u64;
            0
        }
        Err(refusal) => refusal.number(),
    }
}

// The line goes to the buffer, its length to the lent number.
pub fn refusal_line(number: u64, out: &mut [u8], size: &mut u64) -> u64
    ensures { leaves result size.new (out.new, tt) ≡ exported same size.old (refusal_line_of number out.old) }
{
    match report::reports::refusal_line(number, out) {
        Ok(line) => {
            *size = line as u64;
            0
        }
        Err(own) => own.number(),
    }
}
