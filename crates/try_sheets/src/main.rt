// Tries the calls of play sheets: a line for each case that the lists `sheets` and `plans` name, of which plans and sheets are made; then those that `sheet_rooms` and `plan_rooms` name, into buffers of each length.
#![tactic(auto)]

use entry::Refusal;
use trials::refusals::check_of_bytes;
use trials::{ROOM, each_case, each_room, say, say_buffer, say_heading, say_number, say_written};

// A longer result is shown by a check.
const SHOWN: usize = 40;

// The most bytes of a buffer that is tried at each length.
const MOST: usize = 14;

// What each lent byte is before the call.
const HELD: u8 = 165;

// The end of a line: a result, or a check of it.
fn say_result(rt: &impl Print, res: &[u8]) {
    if res.len() <= SHOWN {
        say_buffer(rt, res);
        return;
    }
    say_number(rt, b" check ", check_of_bytes(res));
    say(rt, b"\n");
}

// The end of a line: what was made, if anything was, and none past the buffer's end.
fn say_made(rt: &impl Print, buffer: &[u8], answer: Result<usize, Refusal>) {
    let Ok(size) = answer else {
        say(rt, b"\n");
        return;
    };
    match buffer.get(..size) {
        Some(res) => say_result(rt, res),
        None => say(rt, b" too many\n"),
    }
}

// The line of one case: the answer and the result in a buffer that is long enough.
fn try_whole<F: FnOnce(&mut [u8]) -> Result<usize, Refusal>>(rt: &impl Print, name: &[u8], make: F)
    requires { F.IsAlwaysCallable make }
{
    let mut buffer = [HELD; ROOM];
    let answer = make(&mut buffer);
    say(rt, name);
    say_written(rt, answer);
    say_made(rt, &buffer, answer);
}

// A heading, and the line of each length of the buffer: the answer, and what the buffer holds afterwards.
fn try_rooms<F: Fn(&mut [u8]) -> Result<usize, Refusal>>(rt: &impl Print, name: &[u8], make: F)
    requires { F.IsAlwaysCallable make }
{
    say_heading(rt, b"rooms of ", name);
    each_room([HELD; MOST], |buffer| {
        say_number(rt, b"room ", buffer.len());
        say_written(rt, make(buffer));
        say_buffer(rt, buffer);
    });
}

fn main(rt: HostRuntime) {
    each_case(&rt, b"sheets", |name, game, sheet| {
        try_whole(&rt, name, |out| entry::plan_from_sheet(game, sheet, out));
    });
    each_case(&rt, b"plans", |name, game, plan| {
        try_whole(&rt, name, |out| entry::sheet_from_plan(game, plan, out));
    });
    each_case(&rt, b"sheet_rooms", |name, game, sheet| {
        try_rooms(&rt, name, |out| entry::plan_from_sheet(game, sheet, out));
    });
    each_case(&rt, b"plan_rooms", |name, game, plan| {
        try_rooms(&rt, name, |out| entry::sheet_from_plan(game, plan, out));
    });
}
