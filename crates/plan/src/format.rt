// Checks 14 and 15: the length of a plan file, its header and its filling.
ghost use Rattle.std.specs.Prelude.{◌≡◌, ◌+◌, ◌*◌, ◌-◌, ◌/◌, length};
ghost use Rattle.model.specs.Game.{Game};
ghost use Rattle.model.specs.PlanChecks.{plan_has_length, plan_well_formed};
ghost use Rattle.checks.specs.declared.Refusal.TheVariants.{PlanLength, PlanForm};
ghost use Rattle.checks.specs.Answers.{checked_of};
ghost use Rattle.loaded.specs.Counts.{counts_of};
ghost use Rattle.plan.specs.Header.{header_right_of};
ghost use Rattle.plan.specs.Loaded.{SequencesCounted};
ghost use Rattle.plan.specs.Weights.{weights_of};

use checks::Refusal;
use loaded::Counts;
use records::PlanHeader;

// How many weights a plan file has: one for each sequence but the empty ones.
pub fn weight_count(counts: Counts) -> usize
    requires { SequencesCounted counts }
    ensures { result ≡ weights_of counts }
{
    (counts.sequences1 - 1) + (counts.sequences2 - 1)
}

// Check 14, for an accepted game with these counts.
pub fn has_length(plan: &[u8], counts: Counts) -> Result<(), Refusal>
    requires { SequencesCounted counts }
    ensures { (g : Game) → counts ≡ counts_of g → result ≡ checked_of PlanLength (plan_has_length g plan.now) }
{
    checks::check(
        Refusal::PlanLength,
        plan.len() == PlanHeader::file_bytes(weight_count(counts)),
    )
}

// Whether the edition is 1, no denominator is zero, and the zero bits are.
#[tactic(auto, unfolding(crate::specs::Header::header_right_of))]
fn header_right(header: PlanHeader) -> bool
    ensures { result ≡ header_right_of header }
{
    header.edition == PlanHeader::EDITION
        && header.denominators.d1 != 0
        && header.denominators.d2 != 0
        && header.zeros == 0
}

// Check 15, of a file that passes 14.
pub fn well_formed(plan: &[u8], counts: Counts) -> Result<(), Refusal>
    requires { SequencesCounted counts × (length plan.now ≡ 4 + (12 * weights_of counts + 7) / 8) }
    ensures { (g : Game) → counts ≡ counts_of g → result ≡ checked_of PlanForm (plan_well_formed g plan.now) }
{
    let at = PlanHeader::weight_at(weight_count(counts));
    checks::check(
        Refusal::PlanForm,
        header_right(PlanHeader::read(plan))
            && bits::read_field(plan, at, 8 * plan.len() - at) == 0,
    )
}
