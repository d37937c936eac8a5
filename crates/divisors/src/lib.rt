// Greatest common divisors.
#![tactic(auto)]

ghost use Rattle.std.specs.Prelude.{◌≡◌};
ghost use Rattle.algebra.specs.Divisors.{gcd};

// The greatest common divisor of two numbers, by Euclid's way; of 0 and 0 it is 0.
// How many divisions there are is not known before, so no `for` counts them.
pub fn gcd(a: u64, b: u64) -> u64
    ensures { result ≡ gcd a b }
{
    let mut left = a;
    let mut right = b;
    while right > 0 {
        let rest = left % right;
        left = right;
        right = rest;
    }
    left
}
