// Play sheets for a loaded game: how long they are, check 19, the odds of either player by sequence number, and his sets in the order in which they are taken. The bits of each move are the caller's number.
#![tactic(auto)]

ghost use Rattle.std.specs.Prelude.{◌≡◌, ◌+◌, ◌*◌, ◌-◌, ◌/◌, ◌^◌, ◌≤◌, ◌<◌, eqb, length};
ghost use Rattle.algebra.specs.Arrays.{placed};
ghost use Rattle.model.specs.Bits.{field, fields};
ghost use Rattle.model.specs.Limits.{count_limit};
ghost use Rattle.model.specs.Game.{Game};
ghost use Rattle.model.specs.Sheet.{sheet_well_formed};
ghost use Rattle.checks.specs.declared.Refusal.TheVariants.{SheetForm};
ghost use Rattle.checks.specs.Answers.{checked_of};
ghost use Rattle.loaded.specs.declared.Counts.{Counts};
ghost use Rattle.loaded.specs.Counts.{counts_of};
ghost use Rattle.loaded.specs.Players.{as_player};
ghost use Rattle.loaded.specs.Loaded.{NumbersLoaded};
ghost use Rattle.plan.specs.Loaded.{SequencesCounted};
ghost use Rattle.sheets.specs.OwnSets.{OrderPlace, own_set_of};

use checks::Refusal;
use loaded::{Counts, Player, Section, SetSequences};
use plan::MoveRun;

// How many bytes a sheet of so many moves has.
pub fn file_bytes(width: usize, moves: usize) -> usize
    requires { width * moves + 7 < 2 ^ 64 }
    ensures { result ≡ (width * moves + 7) / 8 }
{
    (width * moves).div_ceil(8)
}

// Whether the bits of a sheet from `end` on are zero.
fn filled(sheet: &[u8], end: usize) -> bool
    requires { (end < 2 ^ 32) × (length sheet.now ≡ (end + 7) / 8) }
    ensures { result ≡ eqb (field sheet.now end (8 * length sheet.now - end)) 0 }
{
    bits::read_field(sheet, end, 8 * sheet.len() - end) == 0
}

// Check 19, for an accepted game with these counts.
pub fn well_formed(sheet: &[u8], width: usize, counts: Counts) -> Result<(), Refusal>
    requires { SequencesCounted counts × (width ≤ 16) }
    ensures { (g : Game) → counts ≡ counts_of g → result ≡ checked_of SheetForm (sheet_well_formed g width sheet.now) }
{
    let moves = plan::weight_count(counts);
    checks::check(
        Refusal::SheetForm,
        sheet.len() == file_bytes(width, moves) && filled(sheet, width * moves),
    )
}

// Puts a player's odds into the array by the numbers of his sequences, from 1 on.
pub fn decode(sheet: &[u8], width: usize, run: MoveRun, out: &mut [u16])
    requires { (width ≤ 16) × (run.before < count_limit) × (run.count < count_limit) × (run.count < length out.old) }
    ensures { out.new ≡ placed 1 (fields sheet.now (width * run.before) width run.count) out.old }
{
    bits::read_run(sheet, width * run.before, width, run.count, out, 1);
}

// The sequences of the set at place `i` of the order of first nodes, where it is the player's.
pub fn own_set(numbers: &[u16], i: usize, player: Player) -> Option<SetSequences>
    requires { OrderPlace i numbers.now }
    ensures { (g : Game) → (c : Counts) → NumbersLoaded g c numbers.now → i < g.sets → result ≡ own_set_of g (as_player player) i }
{
    let h = loaded::number(numbers, Section::ORDER, i);
    if loaded::owner(numbers, h) == player {
        return Some(loaded::set_sequences(numbers, h));
    }
    None
}
