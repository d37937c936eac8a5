// The calls for the desk program's text: any bytes and any numbers are taken.
ghost use Rattle.std.specs.Prelude.{◌≡◌, ◌≤◌, length};
ghost use Rattle.model.specs.Call.{outcome, run};
ghost use Rattle.model.specs.Calls.Report.{report_call};
ghost use Rattle.model.specs.Calls.RefusalLine.{refusal_line_of};
ghost use Rattle.model.specs.Exported.{same};
ghost use Rattle.checks.specs.Answers.{answered};
ghost use Rattle.report.specs.Giving.{giving};
ghost use Rattle.report.specs.Whole.{most, pair_report, PairReady};

use super::MOST;
use super::whole::write;
use checks::Refusal;
use evaluation::Evaluated;
use form::Values;
use judgement::Deviation;
use loaded::Section;
use pair::PairHeader;
use records::NodeRecord;
use text::lines::put_refusal;
use text::put_text;
use verdict::verdicts::judge;

// Puts a whole text at the start of the buffer; 18 where it is too short for it.
fn give(text: &[u8], out: &mut [u8]) -> Result<usize, Refusal>
    ensures { outcome (answered same result) (out.new, tt) ≡ run giving text.now (out.old, tt) }
{
    checks::check(Refusal::Room, text.len() <= out.len())?;
    put_text(text, out, 0);
    Ok(text.len())
}

// Puts the report on a pair that was evaluated and judged, likewise.
fn give_report(
    numbers: &[u16],
    pair: PairHeader,
    values: Values,
    verdict: Option<Deviation>,
    moves1: &[u16],
    moves2: &[u16],
    out: &mut [u8],
) -> Result<usize, Refusal>
    requires { PairReady numbers.now pair values moves1.now moves2.now × (length (pair_report numbers.now pair values verdict moves1.now moves2.now) ≤ most) }
    ensures { outcome (answered same result) (out.new, tt) ≡ run giving (pair_report numbers.now pair values verdict moves1.now moves2.now) (out.old, tt) }
{
    let mut text = [0u8; MOST];
    let size = write(numbers, pair, values, verdict, moves1, moves2, &mut text);
    give(&text[..size], out)
}

// The desk program's text for two files that fit, at the start of the buffer, and how many bytes it has; a refusal is 1 to 16, or 18.
pub fn report(game: &[u8], plan: &[u8], out: &mut [u8]) -> Result<usize, Refusal>
    ensures { outcome (answered same result) (out.new, tt) ≡ report_call game.now plan.now out.old }
{
    let mut numbers = [0u16; Section::NUMBERS];
    let mut payoffs = [0i16; Section::PAYOFFS];
    let mut moves1 = [0u16; NodeRecord::NODES];
    let mut moves2 = [0u16; NodeRecord::NODES];
    let Evaluated { pair, values } = evaluation::evaluate(
        game,
        plan,
        &mut numbers,
        &mut payoffs,
        &mut moves1,
        &mut moves2,
    )?;
    let judged = judge(values, pair.denominators);
    give_report(&numbers, pair, values, judged, &moves1, &moves2, out)
}

// The line that names a refusal, likewise; its own refusal is 18.
pub fn refusal_line(number: u64, out: &mut [u8]) -> Result<usize, Refusal>
    ensures { outcome (answered same result) (out.new, tt) ≡ refusal_line_of number out.old }
{
    let mut text = [0u8; super::LINE];
    let size = put_refusal(number, &mut text, 0);
    give(&text[..size], out)
}
