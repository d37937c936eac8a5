// Text and numbers on standard output. No contract can say what is written: these functions ask nothing and are proved to be safe and to end.
// A write that fails is passed over: what is missing then shows in the output itself.

use checks::Refusal;
use std::fmt::Display;

// Text.
pub fn say(rt: &impl Print, text: &[u8]) {
    let _ = rt.write_all(text);
}

// A line: a name after its label.
pub fn say_heading(rt: &impl Print, label: &[u8], name: &[u8]) {
    say(rt, label);
    say(rt, name);
    say(rt, b"\n");
}

// A number after its label.
pub fn say_number<T: Display + Copy>(rt: &impl Print, label: &[u8], number: T) {
    say(rt, label);
    let _ = rt.print(number);
}

// Numbers after their label, each after a space.
pub fn say_numbers<T: Display + Copy>(rt: &impl Print, label: &[u8], numbers: &[T]) {
    say(rt, label);
    for number in numbers {
        say_number(rt, b" ", *number);
    }
}

// An answer: what is given, said by `say_given`, or the number of its refusal.
pub fn say_answer<T: Drop, F: FnOnce(T)>(rt: &impl Print, answer: Result<T, Refusal>, say_given: F)
    requires { F.IsAlwaysCallable say_given }
{
    match answer {
        Ok(given) => say_given(given),
        Err(refusal) => say_number(rt, b": refusal ", refusal.number()),
    }
}

// The answer of what writes: how many bytes.
pub fn say_written(rt: &impl Print, answer: Result<usize, Refusal>) {
    say_answer(rt, answer, |size| say_number(rt, b": written ", size));
}

// A byte as two hexadecimal digits.
fn say_byte(rt: &impl Print, byte: u8) {
    let _ = print!(rt; " {byte:02x}");
}

// The end of a line: what a buffer holds.
pub fn say_buffer(rt: &impl Print, buffer: &[u8]) {
    say(rt, b" buffer");
    for byte in buffer {
        say_byte(rt, *byte);
    }
    say(rt, b"\n");
}
