// The payoff table of a game into lent buffers, one a column.
#![tactic(auto)]

ghost use Rattle.std.specs.Prelude.{◌≡◌, [], ◌∷◌, ℕ, ◌≤◌, ◌<◌, leb, length};
ghost use Rattle.algebra.specs.Arrays.{over};
ghost use Rattle.model.specs.Game.{one, two};
ghost use Rattle.model.specs.Call.{long_enough, outcome};
ghost use Rattle.model.specs.Exported.{same};
ghost use Rattle.model.specs.Calls.PayoffTable.{payoff_columns};
ghost use Rattle.checks.specs.Answers.{answered};
ghost use Rattle.loaded.specs.Sections.{leaf_section, payoff_section};
ghost use Rattle.payoff.specs.Layout.{sequence_at, SequenceReady, sum_at, SumReady};

use checks::Refusal;
use loaded::Section;
use rows::SortedLeaves;

// The length of the shortest of four columns: so many rows fit it as fit each of them.
fn shortest(sequence1: usize, sequence2: usize, sum1: usize, sum2: usize) -> usize
    ensures { (n : ℕ) → leb n result ≡ long_enough (n ∷ n ∷ n ∷ n ∷ []) (sequence1 ∷ sequence2 ∷ sum1 ∷ sum2 ∷ []) }
{
    sequence1.min(sequence2).min(sum1).min(sum2)
}

// The sequences of the first `n` rows, each player's into his column.
fn sequences(n: usize, leaves: &SortedLeaves<'_>, sequence1: &mut [u64], sequence2: &mut [u64])
    requires { (n ≤ length sequence1.old) × (n ≤ length sequence2.old) × ((k : ℕ) → k < n → SequenceReady (leaf_section one) leaves.now.numbers.now leaves.now.sorted.now leaves.now.bounds.now k × SequenceReady (leaf_section two) leaves.now.numbers.now leaves.now.sorted.now leaves.now.bounds.now k) }
    ensures { (sequence1.new ≡ over (sequence_at (leaf_section one) leaves.now.numbers.now leaves.now.sorted.now leaves.now.bounds.now) n sequence1.old) × (sequence2.new ≡ over (sequence_at (leaf_section two) leaves.now.numbers.now leaves.now.sorted.now leaves.now.bounds.now) n sequence2.old) }
{
    for k in 0..n {
        sequence1[k] = leaves.sequence(Section::LEAF1, k);
        sequence2[k] = leaves.sequence(Section::LEAF2, k);
    }
}

// The sums of the first `n` rows, each player's into his column.
fn sums(n: usize, leaves: &SortedLeaves<'_>, sum1: &mut [i64], sum2: &mut [i64])
    requires { (n ≤ length sum1.old) × (n ≤ length sum2.old) × ((k : ℕ) → k < n → SumReady (payoff_section one) leaves.now.numbers.now leaves.now.payoffs.now leaves.now.sorted.now leaves.now.bounds.now k × SumReady (payoff_section two) leaves.now.numbers.now leaves.now.payoffs.now leaves.now.sorted.now leaves.now.bounds.now k) }
    ensures { (sum1.new ≡ over (sum_at (payoff_section one) leaves.now.numbers.now leaves.now.payoffs.now leaves.now.sorted.now leaves.now.bounds.now) n sum1.old) × (sum2.new ≡ over (sum_at (payoff_section two) leaves.now.numbers.now leaves.now.payoffs.now leaves.now.sorted.now leaves.now.bounds.now) n sum2.old) }
{
    for k in 0..n {
        sum1[k] = leaves.sum(Section::PAYOFFS1, k);
        sum2[k] = leaves.sum(Section::PAYOFFS2, k);
    }
}

// The payoff table, each column into its buffer: both players' sequence numbers, and for each player the sum of chance weight × payoff. It gives how many rows there are.
pub fn payoff_table(
    game: &[u8],
    sequence1: &mut [u64],
    sequence2: &mut [u64],
    sum1: &mut [i64],
    sum2: &mut [i64],
) -> Result<u64, Refusal>
    ensures { outcome (answered same result) (sequence1.new, (sequence2.new, (sum1.new, (sum2.new, tt)))) ≡ payoff_columns game.now (sequence1.old, (sequence2.old, (sum1.old, (sum2.old, tt)))) }
{
    let mut numbers = [0u16; Section::NUMBERS];
    let mut payoffs = [0i16; Section::PAYOFFS];
    let mut sorted = [0u16; Section::ROOM];
    let mut bounds = [0u16; Section::ROOM];
    let room = shortest(sequence1.len(), sequence2.len(), sum1.len(), sum2.len());
    let rows = rows::laid_out(
        game,
        room,
        &mut numbers,
        &mut payoffs,
        &mut sorted,
        &mut bounds,
    )?;
    let leaves = SortedLeaves {
        numbers: &numbers,
        payoffs: &payoffs,
        sorted: &sorted,
        bounds: &bounds,
    };
    let n = rows as usize;
    sequences(n, &leaves, sequence1, sequence2);
    sums(n, &leaves, sum1, sum2);
    Ok(rows)
}
