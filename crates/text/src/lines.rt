// The report's lines.
ghost use Rattle.std.specs.Prelude.{◌++◌};
ghost use Rattle.model.specs.Earnings.{◌over◌};
ghost use Rattle.model.specs.Report.{ascii, decimal, line, move_line, refusal_line_of};
ghost use Rattle.text.specs.Text.{TextFits, Put};
ghost use Rattle.text.specs.Lines.{amount_line};

use super::amount::put_amount;
use super::decimal::put_decimal;
use super::put_text;

// Puts a label and a number.
fn put_numbered(label: &[u8], number: u64, out: &mut [u8], at: usize) -> usize
    requires { TextFits at (label.now ++ decimal number) out.old }
    ensures { Put at (label.now ++ decimal number) out.old out.new result }
{
    let digits = put_text(label, out, at);
    put_decimal(number, out, digits)
}

// Puts the line of an amount that is a player's: the label, the player, what stands between, and `count` of `base`.
pub fn put_amount_line(
    label: &[u8],
    player_number: u64,
    between: &[u8],
    count: i64,
    base: u64,
    out: &mut [u8],
    at: usize,
) -> usize
    requires { TextFits at (amount_line label.now player_number between.now (count over base)) out.old }
    ensures { Put at (amount_line label.now player_number between.now (count over base)) out.old out.new result }
{
    let past_number = put_numbered(label, player_number, out, at);
    let past_between = put_text(between, out, past_number);
    let past_amount = put_amount(count, base, out, past_between);
    put_text(b"\n", out, past_amount)
}

// Puts the line that accepts a pair.
pub fn put_accepted(out: &mut [u8], at: usize) -> usize
    requires { TextFits at (line (ascii "accepted")) out.old }
    ensures { Put at (line (ascii "accepted")) out.old out.new result }
{
    put_text(b"accepted\n", out, at)
}

// Puts the line of a set with its move.
pub fn put_move_line(set: u64, place: u64, out: &mut [u8], at: usize) -> usize
    requires { TextFits at (move_line (set, place)) out.old }
    ensures { Put at (move_line (set, place)) out.old out.new result }
{
    let past_set = put_numbered(b"set ", set, out, at);
    let past_move = put_numbered(b" move ", place, out, past_set);
    put_text(b"\n", out, past_move)
}

// Puts the line of a refusal.
pub fn put_refusal(number: u64, out: &mut [u8], at: usize) -> usize
    requires { TextFits at (refusal_line_of number) out.old }
    ensures { Put at (refusal_line_of number) out.old out.new result }
{
    let past_number = put_numbered(b"refusal ", number, out, at);
    put_text(b"\n", out, past_number)
}
