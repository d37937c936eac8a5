// The leaves of a game, by leaf.
ghost use Rattle.std.specs.Prelude.{◌≡◌, ◌+◌, ◌≤◌, ◌<◌, length};
ghost use Rattle.algebra.specs.Sections.{Apart};
ghost use Rattle.model.specs.Limits.{count_limit};
ghost use Rattle.model.specs.Game.{Game, one};
ghost use Rattle.loaded.specs.Sections.{leaf_section, head_section_of, numbers_room};
ghost use Rattle.gather.specs.Numbered.{Numbered, NumberedIn};
ghost use Rattle.gather.specs.Gathered.{LeavesBelow, LeavesGathered};
ghost use Rattle.gather.specs.Gathering.{Added};

use loaded::Section;
use records::Kind;

// Leaf `n` into place `at`: both players' own sequences and the chance weight.
fn put_leaf(numbers: &mut [u16], n: usize, at: usize)
    requires { (n ≤ count_limit) × (at ≤ count_limit) × (numbers_room ≤ length numbers.old) }
    ensures { Apart (leaf_section one) (head_section_of one) numbers.old numbers.new × ((g : Game) → n < g.nodes → g.kind n ≡ 0 → Numbered g numbers.old → LeavesBelow g n at numbers.old → LeavesBelow g (n + 1) (at + 1) numbers.new) }
{
    let own1 = loaded::number(numbers, Section::OWN1, n);
    let own2 = loaded::number(numbers, Section::OWN2, n);
    let weight = loaded::number(numbers, Section::WEIGHT, n);
    loaded::put(numbers, Section::LEAF1, at, own1);
    loaded::put(numbers, Section::LEAF2, at, own2);
    loaded::put(numbers, Section::CHANCE, at, weight);
}

// Node `n`, where it is a leaf, into place `at`; the next place that is free.
fn add_node(numbers: &mut [u16], n: usize, at: usize) -> usize
    requires { (n ≤ count_limit) × (at ≤ count_limit) × (numbers_room ≤ length numbers.old) }
    ensures { Added (leaf_section one) (head_section_of one) LeavesBelow n at result numbers.old numbers.new }
{
    if Kind::from(loaded::number(numbers, Section::KIND, n) as u64) == Kind::Leaf {
        put_leaf(numbers, n, at);
        return at + 1;
    }
    at
}

// By leaf both players' own sequences and the chance weight, and how many leaves there are.
pub fn leaves(numbers: &mut [u16], nodes: usize) -> usize
    requires { NumberedIn (λ g. nodes ≡ g.nodes) numbers.old }
    ensures { Apart (leaf_section one) (head_section_of one) numbers.old numbers.new × ((g : Game) → nodes ≡ g.nodes → Numbered g numbers.old → LeavesGathered g result numbers.new) }
{
    let mut count = 0;
    for n in 0..nodes {
        count = add_node(numbers, n, count);
    }
    count
}
