// A loaded game's leaves in the order of its payoff table, and its rows from them.
ghost use Rattle.std.specs.Prelude.{◌≡◌, List, ℤ};
ghost use Rattle.model.specs.Game.{Game};
ghost use Rattle.model.specs.Table.{payoff_table};
ghost use Rattle.loaded.specs.Loaded.{Loaded};
ghost use Rattle.payoff.specs.Table.{TableLaid};
ghost use Rattle.payoff.specs.Layout.{leaves_in, RowsAsked, RowsIn, LayoutAsked, sequence_at, SequenceReady, sum_at, SumReady};

use super::sums;
use loaded::{Counts, Section};
use slices::item;

// The order of the leaves by the pairs of numbers that stand from `from1` and from `from2` on, and where each row begins in it; how many rows there are.
fn sorted_rows(
    numbers: &[u16],
    from1: usize,
    from2: usize,
    counts: Counts,
    sorted: &mut [u16],
    bounds: &mut [u16],
) -> usize
    requires { RowsAsked from1 from2 counts numbers.now sorted.old bounds.old }
    ensures { RowsIn from1 from2 counts numbers.now result sorted.new bounds.new }
{
    sorting::pairs::rows(
        counts.leaves,
        counts.sequences1,
        counts.sequences2,
        &numbers[from1..],
        &numbers[from2..],
        sorted,
        bounds,
    )
}

// The order of the leaves in the payoff table, and where each row begins in it; how many rows there are.
pub fn lay_out(numbers: &[u16], counts: Counts, sorted: &mut [u16], bounds: &mut [u16]) -> usize
    requires { LayoutAsked counts numbers.now sorted.old bounds.old }
    ensures { (g : Game) (payoffs : List ℤ) → Loaded g counts numbers.now payoffs → TableLaid (payoff_table g) result (leaves_in numbers.now payoffs sorted.new bounds.new) }
{
    sorted_rows(
        numbers,
        Section::LEAF1,
        Section::LEAF2,
        counts,
        sorted,
        bounds,
    )
}

// The number of a player's sequence at row `k`, where by leaf his numbers stand from `from` on: that of the row's first leaf.
pub fn row_sequence(numbers: &[u16], from: usize, sorted: &[u16], bounds: &[u16], k: usize) -> usize
    requires { SequenceReady from numbers.now sorted.now bounds.now k }
    ensures { result ≡ sequence_at from numbers.now sorted.now bounds.now k }
{
    let leaf = item(sorted, item(bounds, k));
    loaded::number(numbers, from, leaf)
}

// A player's sum at row `k`, where by leaf his payoffs stand from `from` on.
pub fn row_sum(
    numbers: &[u16],
    payoffs: &[i16],
    from: usize,
    sorted: &[u16],
    bounds: &[u16],
    k: usize,
) -> i64
    requires { SumReady from numbers.now payoffs.now sorted.now bounds.now k }
    ensures { result ≡ sum_at from numbers.now payoffs.now sorted.now bounds.now k }
{
    let start = item(bounds, k);
    let end = item(bounds, k + 1);
    sums::leaf_sum(numbers, payoffs, from, sorted, start, end)
}
