// The desk program: reads `game.bin` and `plan.bin` in the working folder and prints its report on them, or the number of their refusal.
// It takes no arguments, and judges nothing where it is given one: a name that was passed over would seem to be what the report is about.
#![tactic(auto)]

ghost use Rattle.std.specs.Prelude.{ℕ, suc, ◌≤◌, ◌≡◌, List, length};
ghost use Rattle.model.specs.Report.{longest_game, longest_plan, printed};
ghost use Rattle.text.specs.Text.{Put};
ghost use Rattle.report.specs.Whole.{most};
ghost use Rattle.files.specs.Parts.{IsPrefixLen};
ghost use Rattle.desk.specs.Files.{Loaded};
ghost use Rattle.desk.specs.Arguments.{is_alone_of};

use records::{Header, PlanHeader};
use report::MOST;
use report::printing::put_printed;
use std::env::FillError;
use std::rt::Env;

// One byte more than the longest game file that can be accepted has, so that a longer one is refused and not cut to fit.
const GAME: usize = Header::LONGEST_FILE + 1;

// Likewise for a plan file.
const PLAN: usize = PlanHeader::LONGEST_FILE + 1;

// Puts what the program prints for two files at the start of a buffer that is long enough for any text.
// Each file is at the start of a buffer that is longer than any file that can be accepted; what it does not take makes no difference.
fn put_text(game: &[u8], game_count: usize, plan: &[u8], plan_count: usize, out: &mut [u8]) -> usize
    requires longest_game_in_bounds { (suc longest_game ≤ length game.now) × (game_count ≤ length game.now) }
    requires longest_plan_in_bounds { (suc longest_plan ≤ length plan.now) × (plan_count ≤ length plan.now) }
    requires most_in_bounds { most ≤ length out.old }
    ensures by_index { (g p : List ℕ) → Loaded g game_count game.now → Loaded p plan_count plan.now → Put 0 (printed g p) out.old out.new result }
    ensures prefix_len { IsPrefixLen result out.new }
{
    put_printed(&game[..game_count], &plan[..plan_count], out)
}

// Prints a text. One that standard output does not take whole must not pass for one that it took.
fn print(rt: &HostRuntime, text: &[u8]) {
    let taken = files::write_whole(&mut rt.stdout(), text);
    if files::is_whole(taken, text) {
        return;
    }
    files::write_whole(&mut rt.stderr(), b"the text was not written whole\n");
}

// Judges the files of the working folder.
fn judge(rt: &HostRuntime) {
    let mut game = [0u8; GAME];
    let game_count = files::load(rt, b"game.bin", &mut game);
    let mut plan = [0u8; PLAN];
    let plan_count = files::load(rt, b"plan.bin", &mut plan);
    let mut out = [0u8; MOST];
    let size = put_text(&game, game_count, &plan, plan_count, &mut out);
    print(rt, &out[..size]);
}

// Whether the program is started by its name alone, with no arguments.
fn is_alone(words: usize) -> bool
    ensures { result ≡ is_alone_of words }
{
    words < 2
}

// How many words the program is started with; its own name is the first.
fn count_words(rt: &impl Env) -> usize {
    let mut word = [0u8; 1];
    for words in 0..usize::MAX {
        if let Err(FillError::NotPresent) = rt.arg(words, &mut word) {
            return words;
        }
    }
    usize::MAX
}

fn main(rt: HostRuntime) {
    if is_alone(count_words(&rt)) {
        judge(&rt);
        return;
    }
    files::write_whole(
        &mut rt.stderr(),
        b"usage: desk, with game.bin and plan.bin in the working folder; it takes no arguments\n",
    );
}
