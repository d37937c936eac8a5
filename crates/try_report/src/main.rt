// Tries the desk program's text: for each case that the list `cases` names; into buffers around the text's length for those that `rooms` names; and the lines of some refusals.
#![tactic(auto)]

ghost use Rattle.std.specs.Prelude.{suc, ◌≤◌};
ghost use Rattle.report.specs.Whole.{most};

use report::LINE;
use trials::refusals::check_of_bytes;
use trials::{each_case, say, say_heading, say_number, say_written};

// One more than the bytes of the longest text.
const MOST: usize = report::MOST + 1;

// As many bytes as were written, and none past the buffer's end.
fn say_text(rt: &impl Print, buffer: &[u8], size: usize) {
    say(rt, buffer.get(..size).unwrap_or(b"too many\n"));
}

// The line of a refusal.
fn say_line(rt: &impl Print, number: u64) {
    let mut line = [0u8; LINE];
    match entry::refusal_line(number, &mut line) {
        Ok(size) => say_text(rt, &line, size),
        Err(refusal) => say_number(rt, b"no line: ", refusal.number()),
    }
}

// The text for a pair: its report, or the line of its refusal.
fn try_text(rt: &impl Print, game: &[u8], plan: &[u8]) {
    let mut text = [0u8; MOST];
    match entry::report(game, plan, &mut text) {
        Ok(size) => say_text(rt, &text, size),
        Err(refusal) => say_line(rt, refusal.number()),
    }
}

// How many bytes the report on a pair has, at most one fewer than the buffer; none where it is refused.
fn length_of(game: &[u8], plan: &[u8]) -> usize
    ensures { result ≤ most }
{
    let mut text = [0u8; MOST];
    let size = entry::report(game, plan, &mut text).unwrap_or(0);
    size.min(report::MOST)
}

// The line of a buffer of 7s cut to `room` bytes: the answer, and a check of what the buffer holds afterwards.
fn try_room(rt: &impl Print, game: &[u8], plan: &[u8], room: usize)
    requires { room ≤ suc most }
{
    let mut text = [7u8; MOST];
    let buffer = &mut text[..room];
    say_number(rt, b"room ", room);
    say_written(rt, entry::report(game, plan, buffer));
    say_number(rt, b" check ", check_of_bytes(buffer));
    say(rt, b"\n");
}

// Buffers of no byte, of one, and around the report's length.
fn try_rooms(rt: &impl Print, game: &[u8], plan: &[u8]) {
    let length = length_of(game, plan);
    try_room(rt, game, plan, 0);
    try_room(rt, game, plan, 1);
    if length > 0 {
        try_room(rt, game, plan, length - 1);
    }
    try_room(rt, game, plan, length);
    try_room(rt, game, plan, length + 1);
}

// A number with its line.
fn try_line(rt: &impl Print, number: u64) {
    say_number(rt, b"line of ", number);
    say(rt, b": ");
    say_line(rt, number);
}

fn main(rt: HostRuntime) {
    each_case(&rt, b"cases", |name, game, plan| {
        say_heading(&rt, b"== ", name);
        try_text(&rt, game, plan);
    });
    each_case(&rt, b"rooms", |name, game, plan| {
        say_heading(&rt, b"rooms of ", name);
        try_rooms(&rt, game, plan);
    });
    // Refusals, and numbers that are none.
    for number in [0, 1, 9, 10, 13, 18, 255, u64::MAX] {
        try_line(&rt, number);
    }
}
