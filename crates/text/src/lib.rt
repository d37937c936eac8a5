// Text put into a buffer: bytes, numbers in base ten, amounts, and lines.
// Each function puts its text from a place on and answers the place after it.
// The buffer and the place are two parameters: a struct of both would be no plainer, since callers would lend it with a borrow in it, where contracts now speak of plain bytes.
#![tactic(auto)]

ghost use Rattle.text.specs.Text.{TextFits, Put};

pub mod amount;
pub mod decimal;
pub mod lines;

// Puts any bytes. Byte by byte, so that the library for C needs no `memmove`, which a copy of a slice became.
pub fn put_text(text: &[u8], out: &mut [u8], at: usize) -> usize
    requires { TextFits at text.now out.old }
    ensures { Put at text.now out.old out.new result }
{
    for i in 0..text.len() {
        out[at + i] = text[i];
    }
    at + text.len()
}
