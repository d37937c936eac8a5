// Signed numbers, and amounts: the exact count, then what it is counted over.
ghost use Rattle.std.specs.Prelude.{◌≡◌, nat_abs};
ghost use Rattle.model.specs.Earnings.{◌over◌};
ghost use Rattle.model.specs.Report.{signed_decimal, amount};
ghost use Rattle.text.specs.Text.{TextFits, Put};

use super::decimal::put_decimal;
use super::put_text;

// The size of a number. It may not change: it is public, docs/ARCHITECTURE.md names it, and its edit stands on it.
pub fn magnitude(count: i64) -> u64
    ensures { result ≡ nat_abs count }
{
    count.unsigned_abs()
}

// Puts a signed number.
fn put_signed(count: i64, out: &mut [u8], at: usize) -> usize
    requires { TextFits at (signed_decimal count) out.old }
    ensures { Put at (signed_decimal count) out.old out.new result }
{
    let size = magnitude(count);
    let negative = count < 0;
    if negative {
        let digits = put_text(b"-", out, at);
        return put_decimal(size, out, digits);
    }
    put_decimal(size, out, at)
}

// Puts the amount `count` of `base`.
pub fn put_amount(count: i64, base: u64, out: &mut [u8], at: usize) -> usize
    requires { TextFits at (amount (count over base)) out.old }
    ensures { Put at (amount (count over base)) out.old out.new result }
{
    let past_count = put_signed(count, out, at);
    let past_of = put_text(b" of ", out, past_count);
    put_decimal(base, out, past_of)
}
