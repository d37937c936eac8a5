// Sums of weighed payoffs, term by term.
ghost use Rattle.std.specs.Prelude.{◌≡◌, ◌^◌, ◌<◌, pos, ◌+ℤ◌, ◌*ℤ◌};
ghost use Rattle.std.specs.Int.{w64};
ghost use Rattle.std.proofs.Common.{SFits};

// A payoff times its weight.
pub fn weighed(weight: u64, payoff: i16) -> i64
    requires { weight < 2 ^ 48 }
    ensures { result ≡ pos weight *ℤ payoff }
{
    weight as i64 * i64::from(payoff)
}

// A sum and one term more. It may not change: it is public, and its edit stands on it.
pub fn added(sum: i64, term: i64) -> i64
    requires { SFits w64 (sum +ℤ term) }
    ensures { result ≡ sum +ℤ term }
{
    sum + term
}
