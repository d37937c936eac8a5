// Refusal 17: whether what is given to a writer fits. Here numbers, in `game_lists` the fields of a game.
#![tactic(auto)]

ghost use Rattle.std.specs.Prelude.{◌≡◌, ◌^◌, ◌<◌, T, ltb};
ghost use Rattle.model.specs.Writing.{all_fit, fits_signed_of, all_fit_signed_of};

use records::Payload;

mod game_lists;

pub use game_lists::GameLists;

// Whether a number fits a field of `width` bits.
pub fn fits_width(number: u64, width: usize) -> bool
    requires { width < 64 }
    ensures { result ≡ ltb number (2 ^ width) }
{
    number < bits::power(width)
}

// Whether every number does.
pub fn all_fit(numbers: &[u64], width: usize) -> bool
    requires { width < 64 }
    ensures { result ≡ all_fit width numbers.now }
{
    numbers.iter().all(|&x| fits_width(x, width))
}

// Whether an integer fits the field of a payoff.
fn fits_signed(x: i64) -> bool
    ensures { result ≡ fits_signed_of 16 x }
{
    Payload::LEAST <= x && x <= Payload::GREATEST
}

// Whether every integer does.
pub fn all_fit_signed(numbers: &[i64]) -> bool
    ensures { result ≡ all_fit_signed_of 16 numbers.now }
{
    numbers.iter().all(|&x| fits_signed(x))
}

// A payoff that fits its field, as its record has it.
pub fn narrow(x: i64) -> i16
    requires { T (fits_signed_of 16 x) }
    ensures { result ≡ x }
{
    x as i16
}
