// The plan made of a play sheet. Any bytes are taken, nothing is asked of the caller.
#![tactic(auto)]

ghost use Rattle.std.specs.Prelude.{◌≡◌, ◌≤◌, ◌<◌, length};
ghost use Rattle.algebra.specs.Arrays.{item};
ghost use Rattle.model.specs.Limits.{count_limit};
ghost use Rattle.model.specs.Plan.{weight_width, largest_denominator};
ghost use Rattle.model.specs.Call.{outcome, run};
ghost use Rattle.model.specs.Exported.{same};
ghost use Rattle.model.specs.Calls.WritePlan.{write_plan_of};
ghost use Rattle.model.specs.Calls.PlanFromSheet.{sheet_files, call, Makes, plan_from_sheet_of};
ghost use Rattle.checks.specs.Answers.{answered};
ghost use Rattle.plan.specs.Loaded.{SequencesCounted};
ghost use Rattle.plan.specs.Weights.{in_file_order};

use checks::Refusal;
use loaded::{Counts, Section};
use records::{NodeRecord, PlanHeader};

// Writes the plan file of both players' weights by sequence number, each after his denominator.
fn write(counts: Counts, x: &[u16], y: &[u16], out: &mut [u8]) -> Result<usize, Refusal>
    requires { SequencesCounted counts × (count_limit ≤ length x.now) × (count_limit ≤ length y.now) }
    ensures { outcome (answered same result) (out.new, tt) ≡ write_plan_of (item x.now 0) (item y.now 0) (in_file_order counts x.now y.now) out.old }
{
    let mut weights = [0u64; NodeRecord::NODES];
    plan::put_weights(counts, x, y, &mut weights);
    let count = plan::weight_count(counts);
    let d1 = slices::item(x, 0) as u64;
    let d2 = slices::item(y, 0) as u64;
    plan_writer::write(d1, d2, &weights[..count], out)
}

// The plan of a sheet of `width` bits a move, over denominators up to a limit that fits a plan file.
fn make(
    game: &[u8],
    sheet: &[u8],
    width: usize,
    limit: u64,
    out: &mut [u8],
) -> Result<usize, Refusal>
    requires { (width ≤ 16) × (0 < limit) × (limit ≤ largest_denominator) }
    ensures { outcome (answered same result) (out.new, tt) ≡ run (call width limit) (sheet_files game.now sheet.now) (out.old, tt) }
{
    let mut numbers = [0u16; Section::NUMBERS];
    let mut payoffs = [0i16; Section::PAYOFFS];
    let counts = game::load(game, &mut numbers, &mut payoffs)?;
    let mut x = [0u16; NodeRecord::NODES];
    let mut y = [0u16; NodeRecord::NODES];
    weighing::weigh_sheet(&numbers, counts, sheet, width, limit, &mut x, &mut y)?;
    write(counts, &x, &y, out)
}

// Makes the plan of a play sheet: odds of 12 bits, and D up to 4,095.
pub fn plan_from_sheet(game: &[u8], sheet: &[u8], out: &mut [u8]) -> Result<usize, Refusal>
    ensures equation { outcome (answered same result) (out.new, tt) ≡ plan_from_sheet_of game.now sheet.now out.old }
    ensures promise { Makes weight_width largest_denominator (sheet_files game.now sheet.now) out.old (outcome (answered same result) (out.new, tt)) }
{
    make(
        game,
        sheet,
        PlanHeader::WEIGHT_BITS,
        PlanHeader::LARGEST,
        out,
    )
}
