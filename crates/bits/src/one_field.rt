// Fields put into bytes.
ghost use Rattle.std.specs.Prelude.{◌≡◌, ◌+◌, ◌*◌, ◌^◌, ◌≤◌, ◌<◌, length};
ghost use Rattle.bits.specs.Puts.{part_put_of, field_put};

// A number, and `low` in `width` bits after it.
fn join(high: u64, width: usize, low: u64) -> u64
    requires { (width < 64) × (high * 2 ^ width + low < 2 ^ 64) }
    ensures { result ≡ high * 2 ^ width + low }
{
    high * super::power(width) + low
}

// A byte with a number in the `width` bits from bit `at` on.
fn part_put(byte: u8, at: usize, width: usize, number: u64) -> u8
    requires { (at + width ≤ 8) × (number < 2 ^ width) }
    ensures { result ≡ part_put_of byte at width number }
{
    let first = (u64::from(byte) >> (8 - at)) % super::power(at);
    let rest = 8 - (at + width);
    let last = u64::from(byte) % super::power(rest);
    join(join(first, width, number), rest, last) as u8
}

// Puts a number in the `width` bits from bit `at` on, most significant first. Each byte that has some of them is stored once.
// A turn puts as many bits as its byte has room for, so no `for` counts the turns.
pub fn put_field(out: &mut [u8], at: usize, width: usize, number: u64)
    requires { (width ≤ 64) × (at + width < 2 ^ 64) × (at + width ≤ 8 * length out.old) }
    ensures { out.new ≡ field_put out.old at width number }
{
    let mut done: usize = 0;
    while done < width {
        let i = (at + done) / 8;
        let place = (at + done) % 8;
        let left = width - done;
        let count = left.min(8 - place);
        let part = (number >> (left - count)) % super::power(count);
        out[i] = part_put(out[i], place, count, part);
        done += count;
    }
}
