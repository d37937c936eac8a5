// The payoff table of a game as rows, each a small struct, into a lent slice: each row is made from its leaves.
#![tactic(auto)]

ghost use Rattle.std.specs.Prelude.{◌≡◌, map, ℕ, ◌≤◌, ◌<◌, length};
ghost use Rattle.algebra.specs.Arrays.{over};
ghost use Rattle.model.specs.Call.{outcome};
ghost use Rattle.model.specs.Exported.{same};
ghost use Rattle.model.specs.Calls.PayoffTable.{payoff_rows_of};
ghost use Rattle.checks.specs.Answers.{answered};
ghost use Rattle.payoff.specs.Table.{RowReady};
ghost use Rattle.payoff.specs.Layout.{leaves_in, sequence_at, SequenceReady, sum_at, SumReady};
ghost use Rattle.rows.specs.Answers.{model_row};
ghost use Rattle.rows.specs.Rows.{Roomy, TableMade, leaves_sorted, row_made};

use checks::Refusal;
use loaded::Section;
use payoff::layout::{lay_out, row_sequence, row_sum};

// A row of the payoff table: the number of each player's sequence, and each player's sum.
#[derive(Clone, Copy, Debug, PartialEq, Eq)]
pub struct Row {
    pub sequence1: u64,
    pub sequence2: u64,
    pub sum1: i64,
    pub sum2: i64,
}

// What rows are made from: a loaded game, its leaves in the order of the table, and where each row begins among them.
#[derive(Clone, Copy)]
pub struct SortedLeaves<'a> {
    pub numbers: &'a [u16],
    pub payoffs: &'a [i16],
    pub sorted: &'a [u16],
    pub bounds: &'a [u16],
}

impl SortedLeaves<'_> {
    // The number of a player's sequence at row `k`, where by leaf his numbers stand from `from` on.
    pub fn sequence(&self, from: usize, k: usize) -> u64
        requires { SequenceReady from self.now.numbers.now self.now.sorted.now self.now.bounds.now k }
        ensures { result ≡ sequence_at from self.now.numbers.now self.now.sorted.now self.now.bounds.now k }
    {
        row_sequence(self.numbers, from, self.sorted, self.bounds, k) as u64
    }

    // A player's sum at row `k`, where by leaf his payoffs stand from `from` on.
    pub fn sum(&self, from: usize, k: usize) -> i64
        requires { SumReady from self.now.numbers.now self.now.payoffs.now self.now.sorted.now self.now.bounds.now k }
        ensures { result ≡ sum_at from self.now.numbers.now self.now.payoffs.now self.now.sorted.now self.now.bounds.now k }
    {
        row_sum(
            self.numbers,
            self.payoffs,
            from,
            self.sorted,
            self.bounds,
            k,
        )
    }

    // Row `k`, from its leaves: the pair at which they stand, and each player's sum over them.
    fn row(&self, k: usize) -> Row
        requires { RowReady (leaves_sorted self.now) k }
        ensures { result ≡ row_made (leaves_sorted self.now) k }
    {
        let sequence1 = self.sequence(Section::LEAF1, k);
        let sequence2 = self.sequence(Section::LEAF2, k);
        let sum1 = self.sum(Section::PAYOFFS1, k);
        let sum2 = self.sum(Section::PAYOFFS2, k);
        Row {
            sequence1,
            sequence2,
            sum1,
            sum2,
        }
    }

    // Fills the first `n` rows, in order.
    fn fill(&self, rows: &mut [Row], n: usize)
        requires { (n ≤ length rows.old) × ((k : ℕ) → k < n → RowReady (leaves_sorted self.now) k) }
        ensures { rows.new ≡ over (row_made (leaves_sorted self.now)) n rows.old }
    {
        for k in 0..n {
            rows[k] = self.row(k);
        }
    }
}

// Loads a game; the leaves of an accepted one are laid out in the order of its table. How many rows that has, where there is room for so many.
pub fn laid_out(
    game: &[u8],
    room: usize,
    numbers: &mut [u16],
    payoffs: &mut [i16],
    sorted: &mut [u16],
    bounds: &mut [u16],
) -> Result<u64, Refusal>
    requires { Roomy numbers.old payoffs.old sorted.old bounds.old }
    ensures { TableMade game.now room result (leaves_in numbers.new payoffs.new sorted.new bounds.new) }
{
    let counts = game::load(game, numbers, payoffs)?;
    let rows = lay_out(numbers, counts, sorted, bounds);
    checks::has_room(rows, room)?;
    Ok(rows as u64)
}

// The payoff table, each row into its place: how many rows there are. A refusal is 1 to 13, or 18.
// A refused call fills no row. It is not passed on by `?` before the filling, since the edit that fills rows all the same stands here.
pub fn payoff_rows(game: &[u8], rows: &mut [Row]) -> Result<u64, Refusal>
    ensures { outcome (answered same result) (map model_row rows.new, tt) ≡ payoff_rows_of game.now (map model_row rows.old) }
{
    let mut numbers = [0u16; Section::NUMBERS];
    let mut payoffs = [0i16; Section::PAYOFFS];
    let mut sorted = [0u16; Section::ROOM];
    let mut bounds = [0u16; Section::ROOM];
    let answer = laid_out(
        game,
        rows.len(),
        &mut numbers,
        &mut payoffs,
        &mut sorted,
        &mut bounds,
    );
    let leaves = SortedLeaves {
        numbers: &numbers,
        payoffs: &payoffs,
        sorted: &sorted,
        bounds: &bounds,
    };
    leaves.fill(rows, answer.unwrap_or(0) as usize);
    answer
}
