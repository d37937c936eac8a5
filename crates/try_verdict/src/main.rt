// Tries the verdict on pairs: a line for each case that the list `cases` names, then those that `rooms` names with buffers of each length.
#![tactic(auto)]

ghost use Rattle.std.specs.Prelude.{◌≤◌};
ghost use Rattle.model.specs.Limits.{count_limit};

use entry::PairVerdict;
use records::NodeRecord;
use trials::refusals::check_of;
use trials::{each_case, each_room, say, say_answer, say_heading, say_number, say_numbers};

// As many moves as the longest strategy has.
const MOVES: usize = NodeRecord::NODES;

// A longer strategy is shown by a check.
const SHOWN: usize = 12;

// The most entries of a buffer that is tried at each length.
const MOST: usize = 8;

// The verdict on a pair, but for the moves.
fn say_verdict(rt: &impl Print, verdict: PairVerdict) {
    match verdict.deviation {
        None => say(rt, b": accepted"),
        Some(shown) => {
            say_number(rt, b": player ", shown.player.number());
            say_number(rt, b" gain ", shown.gain);
        }
    }
    say_number(rt, b" over ", verdict.base);
}

// How many moves stand in a buffer that has room for all.
fn count_of(verdict: PairVerdict) -> usize
    ensures { result ≤ count_limit }
{
    match verdict.deviation {
        None => 0,
        Some(shown) => shown.sets.min(MOVES as u64) as usize,
    }
}

// The moves of a strategy, or how many and their check.
fn say_moves(rt: &impl Print, moves: &[u64]) {
    if moves.is_empty() {
        return;
    }
    if moves.len() <= SHOWN {
        say_numbers(rt, b" moves", moves);
        return;
    }
    say_number(rt, b" moves ", moves.len());
    say_number(rt, b" check ", check_of(moves));
}

// The verdict with a buffer that is long enough.
fn try_pair(rt: &impl Print, game: &[u8], plan: &[u8]) {
    let mut moves = [7u64; MOVES];
    let answer = entry::verdict(game, plan, &mut moves);
    say_answer(rt, answer, |verdict| {
        say_verdict(rt, verdict);
        say_moves(rt, &moves[..count_of(verdict)]);
    });
    say(rt, b"\n");
}

// The line of one length of the buffer: the answer, and what the buffer holds afterwards.
fn try_moves(rt: &impl Print, game: &[u8], plan: &[u8], moves: &mut [u64]) {
    say_number(rt, b"room ", moves.len());
    say_answer(rt, entry::verdict(game, plan, moves), |verdict| {
        say_verdict(rt, verdict);
    });
    say_numbers(rt, b" moves", moves);
    say(rt, b"\n");
}

fn main(rt: HostRuntime) {
    each_case(&rt, b"cases", |name, game, plan| {
        say(&rt, name);
        try_pair(&rt, game, plan);
    });
    each_case(&rt, b"rooms", |name, game, plan| {
        say_heading(&rt, b"rooms of ", name);
        each_room([7u64; MOST], |moves| {
            try_moves(&rt, game, plan, moves);
        });
    });
}
