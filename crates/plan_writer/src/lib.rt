// The plan writer: refusals 17 and 18, then the header and all weights in file order.
#![tactic(auto)]

ghost use Rattle.std.specs.Prelude.{◌≡◌, ◌+◌, ◌*◌, ◌/◌, ◌≤◌, length};
ghost use Rattle.algebra.specs.Arrays.{placed};
ghost use Rattle.model.specs.Writing.{plan_bytes, plan_fields_fit};
ghost use Rattle.model.specs.Call.{outcome};
ghost use Rattle.model.specs.Calls.WritePlan.{write_plan_of};
ghost use Rattle.model.specs.Exported.{same};
ghost use Rattle.checks.specs.Answers.{answered};

use checks::Refusal;
use fitting::{all_fit, fits_width};
use records::PlanHeader;

// Whether D1, D2 and all weights fit.
fn numbers_fit(d1: u64, d2: u64, weights: &[u64]) -> bool
    ensures { result ≡ plan_fields_fit d1 d2 weights.now }
{
    fits_width(d1, PlanHeader::DENOMINATOR_BITS)
        && fits_width(d2, PlanHeader::DENOMINATOR_BITS)
        && all_fit(weights, PlanHeader::WEIGHT_BITS)
}

// The header, and the weights after it.
fn put_plan(d1: u64, d2: u64, weights: &[u64], out: &mut [u8])
    requires { 4 + (12 * length weights.now + 7) / 8 ≤ length out.old }
    ensures { out.new ≡ placed 0 (plan_bytes d1 d2 weights.now) out.old }
{
    let header = PlanHeader::new(d1, d2);
    header.put(out);
    bits::put_run(out, PlanHeader::BYTES, weights, PlanHeader::WEIGHT_BITS);
}

// Writes a plan file: D1, D2 and all weights, player 1's first.
pub fn write(d1: u64, d2: u64, weights: &[u64], out: &mut [u8]) -> Result<usize, Refusal>
    ensures { outcome (answered same result) (out.new, tt) ≡ write_plan_of d1 d2 weights.now out.old }
{
    checks::check(Refusal::Number, numbers_fit(d1, d2, weights))?;
    let size = PlanHeader::file_bytes(weights.len());
    checks::has_room(size, out.len())?;
    put_plan(d1, d2, weights, out);
    Ok(size)
}
