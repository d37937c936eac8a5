// A play sheet weighed: checks 19 to 21 for a loaded game, and both players' weights over their smallest D.
#![tactic(auto)]

ghost use Rattle.std.specs.Prelude.{◌≡◌, List, ℕ, ◌≤◌, ◌<◌, length};
ghost use Rattle.model.specs.Limits.{count_limit, weight_limit};
ghost use Rattle.model.specs.Game.{Game, game_of, one, two};
ghost use Rattle.model.specs.Sheet.{Odds};
ghost use Rattle.model.specs.Calls.PlanFromSheet.{sheet_files};
ghost use Rattle.loaded.specs.Counts.{counts_of};
ghost use Rattle.loaded.specs.Loaded.{NumbersLoaded};
ghost use Rattle.plan.specs.Loaded.{LoadedIn, SequencesCounted};
ghost use Rattle.sheets.specs.OddsByNumber.{OddsByNumber};
ghost use Rattle.weighing.specs.Weighing.{BothRead, BothWeighed, SheetWeighed};

use checks::Refusal;
use loaded::{Counts, Player};
use plan::MoveRun;

// Reads both players' odds into the arrays, by the numbers of their sequences.
fn read_odds(sheet: &[u8], width: usize, counts: Counts, x: &mut [u16], y: &mut [u16])
    requires { SequencesCounted counts × (width ≤ 16) × (count_limit ≤ length x.old) × (count_limit ≤ length y.old) }
    ensures { (g : Game) → counts ≡ counts_of g → BothRead g width sheet.now x.new y.new }
{
    let first = MoveRun::of(counts, Player::One);
    let second = MoveRun::of(counts, Player::Two);
    sheets::decode(sheet, width, first, x);
    sheets::decode(sheet, width, second, y);
}

// Check 21 of both players' odds by sequence number, which their weights replace.
fn weigh_both(
    numbers: &[u16],
    counts: Counts,
    limit: u64,
    x: &mut [u16],
    y: &mut [u16],
) -> Result<(), Refusal>
    requires { LoadedIn counts numbers.now × (count_limit ≤ length x.old) × (count_limit ≤ length y.old) × (0 < limit) × (limit ≤ weight_limit) }
    ensures { (g : Game) → (odds : Odds) → NumbersLoaded g counts numbers.now → OddsByNumber g one odds x.old → OddsByNumber g two odds y.old → BothWeighed g odds limit result x.new y.new }
{
    let d1 = smallest::weigh(numbers, counts, Player::One, x, limit);
    d1.ok_or(Refusal::NoDenominator)?;
    let d2 = smallest::weigh(numbers, counts, Player::Two, y, limit);
    d2.ok_or(Refusal::NoDenominator)?;
    Ok(())
}

// Checks 19 to 21 of a sheet of `width` bits a move, for denominators up to a limit. Past them the arrays hold both players' weights by sequence number, each after his denominator.
pub fn weigh_sheet(
    numbers: &[u16],
    counts: Counts,
    sheet: &[u8],
    width: usize,
    limit: u64,
    x: &mut [u16],
    y: &mut [u16],
) -> Result<(), Refusal>
    requires { LoadedIn counts numbers.now × (width ≤ 16) × (0 < limit) × (limit ≤ weight_limit) × (count_limit ≤ length x.old) × (count_limit ≤ length y.old) }
    ensures { (game : List ℕ) → NumbersLoaded (game_of game) counts numbers.now → SheetWeighed width limit (sheet_files game sheet.now) result x.new y.new }
{
    sheets::well_formed(sheet, width, counts)?;
    read_odds(sheet, width, counts, x, y);
    odds::given(numbers, counts, x, y)?;
    weigh_both(numbers, counts, limit, x, y)
}
