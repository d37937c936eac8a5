// Tries the calls of game files: a line for each file that the list `cases` names, then every look-up in three of them and all fields of three.
#![tactic(auto)]

use entry::{GameBuffers, GameCounts, Node, Place, Refusal};
use std::rt::Files;
use trials::{ROOM, each_named_file, load, say, say_answer, say_heading, say_number, say_numbers};

// What is known of a game beside its lists.
fn say_counts(rt: &impl Print, label: &[u8], counts: GameCounts) {
    say_numbers(rt, label, &[counts.nodes, counts.sets, counts.root_weight]);
}

// What every node record has.
fn say_place(rt: &impl Print, at: Place) {
    say_number(rt, b" parent ", at.parent);
    say_number(rt, b" move ", at.place);
    say_number(rt, b" weight ", at.weight);
}

// The record of a node.
fn say_node(rt: &impl Print, node: Node) {
    match node {
        Node::Leaf {
            at,
            payoff1,
            payoff2,
        } => {
            say(rt, b": leaf");
            say_place(rt, at);
            say_numbers(rt, b" payoffs", &[payoff1, payoff2]);
        }
        Node::Decision { at, set } => {
            say(rt, b": decision");
            say_place(rt, at);
            say_number(rt, b" set ", set);
        }
        Node::Chance { at, moves } => {
            say(rt, b": chance");
            say_place(rt, at);
            say_number(rt, b" moves ", moves);
        }
    }
}

// The line of one case.
fn try_game(rt: &impl Print, name: &[u8], game: &[u8]) {
    say(rt, name);
    say_answer(rt, entry::check_game(game), |counts| {
        say_counts(rt, b": accepted", counts);
    });
    say(rt, b"\n");
}

// The two lines of one set.
fn look_up_set(rt: &impl Print, game: &[u8], number: u64) {
    say_number(rt, b"set ", number);
    say_answer(rt, entry::set_entry(game, number), |entry| {
        say_number(rt, b": player bit ", entry.player);
        say_number(rt, b" moves ", entry.moves);
    });
    say_number(rt, b"\nset ", number);
    say_answer(rt, entry::own_sequence(game, number), |own| {
        say_number(rt, b": own sequence ", own.number);
    });
    say(rt, b"\n");
}

// The line of one node.
fn look_up_node(rt: &impl Print, game: &[u8], number: u64) {
    say_number(rt, b"node ", number);
    say_answer(rt, entry::node_record(game, number), |node| {
        say_node(rt, node);
    });
    say(rt, b"\n");
}

// Looks up each number below the count, the count itself and the largest number of all.
fn look_up_all<F: Fn(u64)>(count: u64, look_up: F)
    requires { F.IsAlwaysCallable look_up }
{
    for number in 0..count {
        look_up(number);
    }
    look_up(count);
    look_up(u64::MAX);
}

// The look-ups in one case. A refused game counts as one without sets and nodes.
fn try_look_ups(rt: &(impl Files + Print), name: &[u8]) {
    let mut buffer = [0u8; ROOM];
    let game = load(rt, name, &mut buffer);
    say_heading(rt, b"look-ups in ", name);
    let (sets, nodes) = match entry::check_game(game) {
        Ok(counts) => (counts.sets, counts.nodes),
        Err(_) => (0, 0),
    };
    look_up_all(sets, |number| look_up_set(rt, game, number));
    look_up_all(nodes, |number| look_up_node(rt, game, number));
}

// The line of all fields: the answer, and what the buffers hold afterwards.
fn say_fields(rt: &impl Print, answer: Result<GameCounts, Refusal>, buffers: &GameBuffers<'_>) {
    say(rt, b"fields");
    say_answer(rt, answer, |counts| say_counts(rt, b": given", counts));
    say_numbers(rt, b" set-players", buffers.set_players);
    say_numbers(rt, b" set-moves", buffers.set_moves);
    say_numbers(rt, b" kinds", buffers.kinds);
    say_numbers(rt, b" parents", buffers.parents);
    say_numbers(rt, b" moves", buffers.moves);
    say_numbers(rt, b" weights", buffers.weights);
    say_numbers(rt, b" node-sets", buffers.node_sets);
    say_numbers(rt, b" chance-moves", buffers.chance_moves);
    say_numbers(rt, b" payoffs1", buffers.payoffs1);
    say_numbers(rt, b" payoffs2", buffers.payoffs2);
    say(rt, b"\n");
}

// Buffers of 7s for a game of 3 sets and 9 nodes, with room for one more of each; the last is given.
fn try_buffers(rt: &impl Print, game: &[u8], payoffs2: &mut [i64]) {
    let mut buffers = GameBuffers {
        set_players: &mut [7; 4],
        set_moves: &mut [7; 4],
        kinds: &mut [7; 10],
        parents: &mut [7; 10],
        moves: &mut [7; 10],
        weights: &mut [7; 10],
        node_sets: &mut [7; 10],
        chance_moves: &mut [7; 10],
        payoffs1: &mut [7; 10],
        payoffs2,
    };
    let answer = entry::game_fields(game, &mut buffers);
    say_fields(rt, answer, &buffers);
}

// All fields of one case: with room for 9 nodes and one more, and with a last buffer one entry too short for them.
fn try_all_fields(rt: &(impl Files + Print), name: &[u8]) {
    let mut buffer = [0u8; ROOM];
    let game = load(rt, name, &mut buffer);
    try_buffers(rt, game, &mut [7i64; 10]);
    try_buffers(rt, game, &mut [7i64; 8]);
}

fn main(rt: HostRuntime) {
    each_named_file(&rt, b"cases", |name, game| {
        try_game(&rt, name, game);
    });
    try_look_ups(&rt, b"00-study-game");
    try_look_ups(&rt, b"00-chance-game");
    try_look_ups(&rt, b"13-set-below-itself");
    try_all_fields(&rt, b"00-study-game");
    try_all_fields(&rt, b"00-no-sets");
    try_all_fields(&rt, b"13-set-below-itself");
}
