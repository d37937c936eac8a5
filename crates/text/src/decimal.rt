// Numbers in base ten. `put_decimal` is the one writer of them.
ghost use Rattle.std.specs.Prelude.{[], ◌∷◌, ◌+◌, ◌<◌};
ghost use Rattle.model.specs.Report.{decimal};
ghost use Rattle.text.specs.Text.{TextFits, Put};

// Puts one digit.
fn put_digit(digit: u64, out: &mut [u8], at: usize) -> usize
    requires { (digit < 10) × TextFits at ((48 + digit) ∷ []) out.old }
    ensures { Put at ((48 + digit) ∷ []) out.old out.new result }
{
    out[at] = b'0' + digit as u8;
    at + 1
}

// Puts a number: what is left without its last digit, and then that digit.
// `write!` says what it writes in the library's words for digits, so a proof that these are the model's would be longer than this.
pub fn put_decimal(n: u64, out: &mut [u8], at: usize) -> usize
    requires { TextFits at (decimal n) out.old }
    ensures { Put at (decimal n) out.old out.new result }
{
    if n < 10 {
        return put_digit(n, out, at);
    }
    let last = put_decimal(n / 10, out, at);
    put_digit(n % 10, out, last)
}
