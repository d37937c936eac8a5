// The sets of a game in the order of their first nodes.
ghost use Rattle.std.specs.Prelude.{◌≡◌, ◌≤◌, ◌<◌};
ghost use Rattle.algebra.specs.Arrays.{item};
ghost use Rattle.algebra.specs.Sections.{Held, Apart};
ghost use Rattle.model.specs.Game.{Game, one};
ghost use Rattle.loaded.specs.Sections.{order_section, leaf_section};
ghost use Rattle.loaded.specs.Sets.{set_order};
ghost use Rattle.gather.specs.Numbered.{Numbered, NumberedIn};
ghost use Rattle.gather.specs.Gathered.{OrderBelow};
ghost use Rattle.gather.specs.Gathering.{Added};

use loaded::Section;
use records::Kind;

// The set that begins at node `n`, where one does, into place `at`; the next place that is free.
fn add_set(numbers: &mut [u16], n: usize, at: usize) -> usize
    requires { (at ≤ n) × NumberedIn (λ g. n < g.nodes) numbers.old }
    ensures { Added order_section (leaf_section one) OrderBelow n at result numbers.old numbers.new }
{
    if Kind::from(loaded::number(numbers, Section::KIND, n) as u64) == Kind::Decision {
        let set = loaded::number(numbers, Section::PAYLOAD, n);
        if loaded::number(numbers, Section::FIRST_NODE, set) == n {
            loaded::put(numbers, Section::ORDER, at, set);
            return at + 1;
        }
    }
    at
}

// Each set at its place in the order of their first nodes.
pub fn order(numbers: &mut [u16], nodes: usize)
    requires { NumberedIn (λ g. nodes ≡ g.nodes) numbers.old }
    ensures { Apart order_section (leaf_section one) numbers.old numbers.new × ((g : Game) → nodes ≡ g.nodes → Numbered g numbers.old → Held order_section (item (set_order g)) g.sets numbers.new) }
{
    let mut count = 0;
    for n in 0..nodes {
        count = add_set(numbers, n, count);
    }
}
