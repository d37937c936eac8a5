// Number slices, of whatever game: places grouped by their keys, and sums of weighed payoffs.
#![tactic(auto)]

ghost use Rattle.std.specs.Prelude.{◌≡◌, ◌<◌, length};
ghost use Rattle.algebra.specs.Arrays.{item};

pub mod chains;
pub mod sums;

// The number at place `i`.
pub fn item(numbers: &[u16], i: usize) -> usize
    requires { i < length numbers.now }
    ensures { (result ≡ item numbers.now i) × (result < 65536) }
{
    usize::from(numbers[i])
}
