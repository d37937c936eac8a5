// The payoff table as numbers and slices alone, for the exports: the refusal is the result, 0 is none; what is lent for a result
// keeps what it held where the call refuses.
#![tactic(auto)]

ghost use Rattle.std.specs.Prelude.{◌≡◌};
ghost use Rattle.model.specs.Exported.{same, exported, leaves};
ghost use Rattle.model.specs.Calls.PayoffTable.{payoff_columns};

// Each column goes to its buffer, how many rows there are to the lent number.
pub fn payoff_table(
    game: &[u8],
    sequence1: &mut [u64],
    sequence2: &mut [u64],
    sum1: &mut [i64],
    sum2: &mut [i64],
    rows: &mut u64,
) -> u64
    ensures { leaves result rows.new (sequence1.new, (sequence2.new, (sum1.new, (sum2.new, tt)))) ≡ exported same rows.old (payoff_columns game.now (sequence1.old, (sequence2.old, (sum1.old, (sum2.old, tt))))) }
{
    match table::payoff_table(game, sequence1, sequence2, sum1, sum2) {
        Ok(count) => {
            *rows = count;
            0
        }
        Err(refusal) => refusal.number(),
    }
}
