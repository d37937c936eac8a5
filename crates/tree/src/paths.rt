// Check 11: the moves from the root to each node.
ghost use Rattle.std.specs.Prelude.{◌≡◌};
ghost use Rattle.model.specs.Game.{Game};
ghost use Rattle.model.specs.GameChecks.{paths_in_limit_of};
ghost use Rattle.checks.specs.declared.Refusal.TheVariants.{PathLength};
ghost use Rattle.checks.specs.Answers.{checked_of};
ghost use Rattle.tree.specs.Games.{TreeIn};

use checks::Refusal;
use loaded::Section;
use records::NodeRecord;

// Check 11: each node is one move further than its parent, whose number is smaller.
pub fn paths_in_limit(numbers: &[u16], nodes: usize) -> Result<(), Refusal>
    requires { (g : Game) × TreeIn nodes numbers.now g }
    ensures { (g : Game) → TreeIn nodes numbers.now g → result ≡ checked_of PathLength (paths_in_limit_of g) }
{
    let mut depths = [0u8; NodeRecord::NODES];
    for n in 1..nodes {
        let parent = loaded::number(numbers, Section::PARENT, n);
        let depth = u64::from(depths[parent]) + 1;
        if depth > NodeRecord::PATH {
            return Err(Refusal::PathLength);
        }
        depths[n] = depth as u8;
    }
    Ok(())
}
