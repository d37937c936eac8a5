// Amounts compared with whole numbers of thousandths.
#![tactic(auto)]

ghost use Rattle.std.specs.Prelude.{◌≡◌};
ghost use Rattle.model.specs.Earnings.{◌over◌};
ghost use Rattle.model.specs.Tolerance.{thousandths, at_most, thousandths_up};
ghost use Rattle.thousandths.specs.Rounding.{RoundingFits, AmountFits};

// The smallest number of thousandths that is not below `count` over `base`.
// The quotient comes first, and only the remainder is multiplied: 1,000 × count can pass 64 bits.
pub fn rounded_up(count: u64, base: u64) -> u64
    requires { RoundingFits count base }
    ensures { result ≡ thousandths_up count base }
{
    let quotient = count / base;
    let remainder = count % base;
    1000 * quotient + (1000 * remainder).div_ceil(base)
}

// Whether an amount that is not below 0 is at most so many thousandths.
pub fn at_most(count: i64, base: u64, tolerance: u64) -> bool
    requires { AmountFits count base }
    ensures { result ≡ at_most (count over base) (thousandths tolerance) }
{
    rounded_up(count.unsigned_abs(), base) <= tolerance
}
