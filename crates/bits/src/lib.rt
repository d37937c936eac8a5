// A file's bits: fields and runs read from bytes and put into them, and what turns one number into another.
// A width is a plain `usize`: callers give constants, of which the check sees that they are at most 64; a type for that would be no plainer.
#![tactic(auto)]

ghost use Rattle.std.specs.Prelude.{◌≡◌, suc, ◌+◌, ◌-◌, ◌/◌, ◌%◌, ◌^◌, ◌≤◌, ◌<◌};
ghost use Rattle.model.specs.Bits.{bit, field, signed, twos_complement};

pub mod one_field;
pub mod runs;

pub use one_field::put_field;
pub use runs::{put_run, read_run};

// Bit `at` of the bytes, counted from the most significant bit of the first; 0 past their end.
pub fn read_bit(bytes: &[u8], at: usize) -> u64
    ensures { (result ≡ bit bytes.now at) × (result < 2) }
{
    let Some(byte) = bytes.get(at / 8) else {
        return 0;
    };
    digit(u64::from(*byte), 8, at % 8)
}

// The number in the `width` bits from bit `at` on, most significant first; 0 for each bit past the end.
// The place of the last bit, `at + width - 1`, has to be a `usize`.
pub fn read_field(bytes: &[u8], at: usize, width: usize) -> u64
    requires { (width ≤ 64) × (at + width ≤ 2 ^ 64) }
    ensures { (result ≡ field bytes.now at width) × (result < 2 ^ width) }
{
    let mut value: u64 = 0;
    for i in 0..width {
        value = 2 * value + read_bit(bytes, at + i);
    }
    value
}

// A field as an index: a `usize` has 64 bits.
// It may not change: it is public, and the proofs of callers in four crates name its calls.
pub fn index(x: u64) -> usize
    ensures { result ≡ x }
{
    x as usize
}

// 2 to the power `n`.
pub fn power(n: usize) -> u64
    requires { n < 64 }
    ensures { result ≡ 2 ^ n }
{
    1u64 << n
}

// Of a word the number in the `width` bits above its last `below`: a shift and a remainder.
pub fn cut(word: u64, below: usize, width: usize) -> u64
    requires { (below < 64) × (width < 64) }
    ensures { (result ≡ word / 2 ^ below % 2 ^ width) × (result < 2 ^ width) }
{
    (word >> below) % power(width)
}

// A field of 16 bits as two's complement.
pub fn signed16(x: u64) -> i16
    requires { x < 2 ^ 16 }
    ensures { result ≡ signed 16 x }
{
    (x as u16).cast_signed()
}

// The same number's field, from the integer.
pub fn unsigned16(x: i16) -> u64
    ensures { (result ≡ twos_complement 16 x) × (result < 2 ^ 16) }
{
    u64::from(x.cast_unsigned())
}

// Bit `i` of the `width` bits of `n`, most significant first.
pub fn digit(n: u64, width: usize, i: usize) -> u64
    requires { (i < width) × (width ≤ 64) }
    ensures { result ≡ n / 2 ^ (width - suc i) % 2 }
{
    (n >> (width - 1 - i)) % 2
}
