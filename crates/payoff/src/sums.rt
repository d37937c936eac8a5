// One player's sum over the leaves of a row.
ghost use Rattle.std.specs.Prelude.{◌≡◌, ◌-◌, ◌<◌, length};
ghost use Rattle.loaded.specs.Sections.{chance_section};
ghost use Rattle.algebra.specs.Sections.{section};
ghost use Rattle.payoff.specs.Table.{weighed_at, leaf_sum_of, Summable};

use loaded::Section;
use slices::item;
use slices::sums::{added, weighed};

// Chance weight × payoff of the leaf at place `k`, where the payoffs stand from `from` on.
fn leaf_term(numbers: &[u16], payoffs: &[i16], from: usize, k: usize) -> i64
    requires { (k < length (section chance_section numbers.now)) × (k < length (section from payoffs.now)) }
    ensures { result ≡ weighed_at (section chance_section numbers.now) (section from payoffs.now) k }
{
    let weight = loaded::number(numbers, Section::CHANCE, k);
    weighed(weight as u64, loaded::payoff(payoffs, from, k))
}

// One player's sum over the sorted leaves from `start` to before `end`, where his payoffs stand from `from` on: chance weight × payoff.
pub fn leaf_sum(
    numbers: &[u16],
    payoffs: &[i16],
    from: usize,
    sorted: &[u16],
    start: usize,
    end: usize,
) -> i64
    requires { Summable start end sorted.now (section chance_section numbers.now) (section from payoffs.now) }
    ensures { result ≡ leaf_sum_of sorted.now (section chance_section numbers.now) (section from payoffs.now) start (end - start) }
{
    let mut sum: i64 = 0;
    for i in start..end {
        let leaf = item(sorted, i);
        sum = added(sum, leaf_term(numbers, payoffs, from, leaf));
    }
    sum
}
