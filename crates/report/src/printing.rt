// All that the desk program prints: the report, or the line of the refusal.
ghost use Rattle.std.specs.Prelude.{◌≤◌, length};
ghost use Rattle.model.specs.Report.{printed};
ghost use Rattle.text.specs.Text.{Put};
ghost use Rattle.report.specs.Whole.{most};

use super::reports::report;
use text::lines::put_refusal;

// Puts what the program prints for two files at the start of a buffer that is long enough for any.
pub fn put_printed(game: &[u8], plan: &[u8], out: &mut [u8]) -> usize
    requires { most ≤ length out.old }
    ensures { Put 0 (printed game.now plan.now) out.old out.new result }
{
    match report(game, plan, out) {
        Ok(size) => size,
        Err(refusal) => put_refusal(refusal.number(), out, 0),
    }
}
