// One player's weights by sequence number.
ghost use Rattle.std.specs.Prelude.{◌≡◌, ◌+◌, ◌≤◌, ◌<◌, length};
ghost use Rattle.algebra.specs.Arrays.{over};
ghost use Rattle.model.specs.Limits.{weight_limit};
ghost use Rattle.plan.specs.Weights.{weights_from};

use super::move_run::MoveRun;
use records::PlanHeader;

// Puts a player's weights into the array: his denominator, then those of his moves.
pub fn decode(plan: &[u8], denominator: u64, run: MoveRun, out: &mut [u16])
    requires { (denominator ≤ weight_limit) × (run.before ≤ 4094) × (run.count ≤ 4094) × (run.count < length out.old) }
    ensures { out.new ≡ over (weights_from plan.now denominator run.before) (1 + run.count) out.old }
{
    out[0] = denominator as u16;
    let at = PlanHeader::weight_at(run.before);
    bits::read_run(plan, at, PlanHeader::WEIGHT_BITS, run.count, out, 1);
}
