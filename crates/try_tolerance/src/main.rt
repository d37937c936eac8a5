// Tries house tolerance: of each case that the list `cases` names, a line for each number that its third file has, two bytes each.
#![tactic(auto)]

use trials::{each_case_of_three, say, say_answer, say_number};

// Whether a pair passes.
fn say_passes(rt: &impl Print, passes: bool) {
    if passes {
        say(rt, b": yes");
    } else {
        say(rt, b": no");
    }
}

// The line of one tolerance.
fn try_tolerance(rt: &impl Print, name: &[u8], game: &[u8], plan: &[u8], tolerance: u16) {
    say(rt, name);
    say_number(rt, b" at ", tolerance);
    say_answer(rt, entry::tolerates(game, plan, tolerance), |passes| {
        say_passes(rt, passes);
    });
    say(rt, b"\n");
}

// A line for each of the tolerances, high byte first.
fn try_tolerances(rt: &impl Print, name: &[u8], game: &[u8], plan: &[u8], tolerances: &[u8]) {
    let (numbers, _) = tolerances.as_chunks::<2>();
    for bytes in numbers {
        try_tolerance(rt, name, game, plan, u16::from_be_bytes(*bytes));
    }
}

fn main(rt: HostRuntime) {
    each_case_of_three(&rt, b"cases", |name, game, plan, tolerances| {
        try_tolerances(&rt, name, game, plan, tolerances);
    });
}
