// The whole report on a pair: both values, both best values, and the verdict.
ghost use Rattle.std.specs.Prelude.{◌≡◌, ◌≤◌, pos, ◌*ℤ◌, length};
ghost use Rattle.std.specs.Int.{w64};
ghost use Rattle.std.proofs.Common.{SFits};
ghost use Rattle.model.specs.Earnings.{◌over◌};
ghost use Rattle.model.specs.Limits.{weight_limit};
ghost use Rattle.loaded.specs.Players.{as_player};
ghost use Rattle.judgement.specs.Judgement.{GainFits};
ghost use Rattle.text.specs.Text.{TextFits, Put};
ghost use Rattle.report.specs.Whole.{both_lines, values_text, deviation_text, verdict_text, pair_report, PairReady};

use super::strategy::put_strategy;
use form::Values;
use judgement::Deviation;
use loaded::Player;
use pair::PairHeader;
use records::Denominators;
use text::lines::{put_accepted, put_amount_line};
use verdict::verdicts::base;

// A player's best value over D0 × D1 × D2: `best` is over D0 × the other's D, `denominator` is his own D.
fn scaled_best(denominator: u64, best: i64) -> i64
    requires { (denominator ≤ weight_limit) × SFits w64 (pos denominator *ℤ best) }
    ensures { result ≡ pos denominator *ℤ best }
{
    let scale = denominator as i64;
    scale * best
}

// Puts the same line for player 1 and for player 2.
fn put_both(label: &[u8], count1: i64, count2: i64, base: u64, out: &mut [u8], at: usize) -> usize
    requires { TextFits at (both_lines label.now count1 count2 base) out.old }
    ensures { Put at (both_lines label.now count1 count2 base) out.old out.new result }
{
    let past_first = put_amount_line(label, 1, b" ", count1, base, out, at);
    put_amount_line(label, 2, b" ", count2, base, out, past_first)
}

// Puts values and best values, all of `base`.
fn put_values(
    values: Values,
    denominators: Denominators,
    base: u64,
    out: &mut [u8],
    at: usize,
) -> usize
    requires gain_fits { GainFits denominators.d1 values.best1 values.value1 × GainFits denominators.d2 values.best2 values.value2 }
    requires text_fits { TextFits at (values_text values denominators.d1 denominators.d2 base) out.old }
    ensures { Put at (values_text values denominators.d1 denominators.d2 base) out.old out.new result }
{
    let past_values = put_both(b"value ", values.value1, values.value2, base, out, at);
    let best1 = scaled_best(denominators.d1, values.best1);
    let best2 = scaled_best(denominators.d2, values.best2);
    put_both(b"best ", best1, best2, base, out, past_values)
}

// Puts a deviation, with its player's strategy.
fn put_deviation(
    numbers: &[u16],
    sets: usize,
    found: Deviation,
    base: u64,
    moves: &[u16],
    out: &mut [u8],
    at: usize,
) -> usize
    requires { (sets ≤ length numbers.now) × (sets ≤ length moves.now) × TextFits at (deviation_text numbers.now sets (as_player found.player) (found.gain over base) moves.now) out.old }
    ensures { Put at (deviation_text numbers.now sets (as_player found.player) (found.gain over base) moves.now) out.old out.new result }
{
    let past_gain = put_amount_line(
        b"deviation player ",
        found.player.number(),
        b" gain ",
        found.gain,
        base,
        out,
        at,
    );
    put_strategy(numbers, sets, found.player, moves, out, past_gain)
}

// Puts the verdict.
fn put_verdict(
    numbers: &[u16],
    sets: usize,
    verdict: Option<Deviation>,
    base: u64,
    moves1: &[u16],
    moves2: &[u16],
    out: &mut [u8],
    at: usize,
) -> usize
    requires { (sets ≤ length numbers.now) × (sets ≤ length moves1.now) × (sets ≤ length moves2.now) × TextFits at (verdict_text numbers.now sets base verdict moves1.now moves2.now) out.old }
    ensures { Put at (verdict_text numbers.now sets base verdict moves1.now moves2.now) out.old out.new result }
{
    let Some(found) = verdict else {
        return put_accepted(out, at);
    };
    match found.player {
        Player::One => put_deviation(numbers, sets, found, base, moves1, out, at),
        Player::Two => put_deviation(numbers, sets, found, base, moves2, out, at),
    }
}

// Puts the whole report at the start of a buffer that is long enough; `numbers` has the player of each set, `moves1` and `moves2` each player's moves by set.
pub fn write(
    numbers: &[u16],
    pair: PairHeader,
    values: Values,
    verdict: Option<Deviation>,
    moves1: &[u16],
    moves2: &[u16],
    out: &mut [u8],
) -> usize
    requires { PairReady numbers.now pair values moves1.now moves2.now × TextFits 0 (pair_report numbers.now pair values verdict moves1.now moves2.now) out.old }
    ensures { Put 0 (pair_report numbers.now pair values verdict moves1.now moves2.now) out.old out.new result }
{
    let counts = pair.counts;
    let base = base(pair);
    let past_values = put_values(values, pair.denominators, base, out, 0);
    put_verdict(
        numbers,
        counts.sets,
        verdict,
        base,
        moves1,
        moves2,
        out,
        past_values,
    )
}
