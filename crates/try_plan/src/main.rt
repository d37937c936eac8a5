// Tries the calls of plan files: a line for each case that the list `cases` names, then all weights of those that `rooms` names, into buffers of each length.
#![tactic(auto)]

use trials::{each_case, each_room, say, say_answer, say_heading, say_number, say_numbers};

// The most entries of a buffer for weights.
const MOST: usize = 12;

// The denominators of a plan that fits.
fn say_fits(rt: &impl Print, d1: u64, d2: u64) {
    say_numbers(rt, b": plan of", &[d1, d2]);
}

// The line of one case.
fn try_plan(rt: &impl Print, name: &[u8], game: &[u8], plan: &[u8]) {
    say(rt, name);
    say_answer(rt, entry::check_plan(game, plan), |fits| {
        say_fits(rt, fits.d1, fits.d2);
    });
    say(rt, b"\n");
}

// The line of one length of the buffer: the answer, and what the buffer holds afterwards.
fn try_weights(rt: &impl Print, game: &[u8], plan: &[u8], weights: &mut [u64]) {
    say_number(rt, b"room ", weights.len());
    say_answer(rt, entry::plan_fields(game, plan, weights), |given| {
        say_fits(rt, given.d1, given.d2);
        say_number(rt, b" count ", given.count);
    });
    say_numbers(rt, b" weights", weights);
    say(rt, b"\n");
}

fn main(rt: HostRuntime) {
    each_case(&rt, b"cases", |name, game, plan| {
        try_plan(&rt, name, game, plan);
    });
    each_case(&rt, b"rooms", |name, game, plan| {
        say_heading(&rt, b"rooms of ", name);
        each_room([7u64; MOST], |weights| {
            try_weights(&rt, game, plan, weights);
        });
    });
}
