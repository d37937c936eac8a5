// A check of numbers or bytes that are too many to be shown.
ghost use Rattle.std.specs.Prelude.{◌≡◌};
ghost use Rattle.trials.specs.Checks.{taken_in_of, checksum_of, checksum_of_bytes};

// What a check is taken modulo.
const MODULUS: u64 = 65521;

// A check after one more number.
pub fn taken_in(check: u64, number: u64) -> u64
    ensures { result ≡ taken_in_of check number }
{
    (check % MODULUS * 31 + number % MODULUS) % MODULUS
}

// A check after one more entry of a list: its sign, which is 0, and then the entry.
fn entry_taken_in(check: u64, number: u64) -> u64
    ensures { result ≡ taken_in_of (taken_in_of check 0) number }
{
    taken_in(taken_in(check, 0), number)
}

// A check of a list.
pub fn check_of(numbers: &[u64]) -> u64
    ensures { result ≡ checksum_of numbers.now }
{
    numbers
        .iter()
        .fold(0, |check, number| entry_taken_in(check, *number))
}

// A check of bytes: each is taken in, without a sign.
pub fn check_of_bytes(bytes: &[u8]) -> u64
    ensures { result ≡ checksum_of_bytes bytes.now }
{
    bytes
        .iter()
        .fold(0, |check, byte| taken_in(check, u64::from(*byte)))
}
