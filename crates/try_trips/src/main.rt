// Tries the round trips: the study game with its plans M and F, files that are refused, and buffers that are too short.
#![tactic(auto)]

use columns::GameBuffers;
use fitting::GameLists;
use records::Header;
use trials::{ROOM, load, say, say_answer, say_buffer, say_number, say_numbers, say_written};

// A weight that does not fit its field, which is as wide as a count's.
const TOO_LARGE: u64 = 1 << Header::COUNT_BITS;

// What each lent byte is before the call.
const HELD: u8 = 165;

// A plan written again, into one buffer.
fn rewrite_plan(rt: &impl Print, game: &[u8], plan: &[u8], out: &mut [u8]) {
    say(rt, b"plan");
    say_written(rt, plan_trips::rewrite_plan(game, plan, out));
    say_buffer(rt, out);
}

// Into a buffer with room for one byte more than the study game's plans have, and into one that is a byte too short.
fn try_plan(rt: &impl Print, game: &[u8], plan: &[u8]) {
    rewrite_plan(rt, game, plan, &mut [HELD; 14]);
    rewrite_plan(rt, game, plan, &mut [HELD; 12]);
}

// A game written again, into one buffer.
fn rewrite_game(rt: &impl Print, game: &[u8], out: &mut [u8]) {
    say(rt, b"game");
    say_written(rt, game_trips::rewrite_game(game, out));
    say_buffer(rt, out);
}

// Into a buffer with room for one byte more than the study game has, and into one that is a byte too short.
fn try_game(rt: &impl Print, game: &[u8]) {
    rewrite_game(rt, game, &mut [HELD; 81]);
    rewrite_game(rt, game, &mut [HELD; 79]);
}

// Weights written and read back, into one buffer.
fn reread_plan(rt: &impl Print, game: &[u8], d1: u64, d2: u64, weights: &[u64], out: &mut [u64]) {
    say(rt, b"weights");
    let answer = plan_trips::reread_plan(game, d1, d2, weights, out);
    say_answer(rt, answer, |given| {
        say_numbers(rt, b": given", &[given.d1, given.d2]);
        say_number(rt, b" count ", given.count);
    });
    say_numbers(rt, b" weights", out);
    say(rt, b"\n");
}

// Into a buffer with room for one weight more than the study game's plans have, and into one that is an entry too short.
fn try_weights(rt: &impl Print, game: &[u8], d1: u64, d2: u64, weights: &[u64]) {
    reread_plan(rt, game, d1, d2, weights, &mut [7u64; 7]);
    reread_plan(rt, game, d1, d2, weights, &mut [7u64; 5]);
}

// The weights of plan M; with a D1 that does not fit them, with a D2 that does not fit its field, and with a game that is refused. Then more weights than any game has moves.
fn try_weights_of(rt: &impl Print, game: &[u8], plan: &[u8], refused: &[u8]) {
    let mut weights = [0u64; 6];
    let _ = plans::plan_fields(game, plan, &mut weights);
    try_weights(rt, game, 3, 3, &weights);
    try_weights(rt, game, 4, 3, &weights);
    try_weights(rt, game, 3, TOO_LARGE, &weights);
    try_weights(rt, refused, 3, 3, &weights);
    try_weights(rt, game, 3, 3, &[1u64; 5001]);
}

// Fields of a game of 3 sets and 9 nodes written and read back. Buffers of 7s have room for one more of each; the last is given, and shown with two others.
fn reread_game(rt: &impl Print, given: &GameLists<'_>, payoffs2: &mut [i64]) {
    let mut buffers = GameBuffers {
        set_players: &mut [7; 4],
        set_moves: &mut [7; 4],
        kinds: &mut [7; 10],
        parents: &mut [7; 10],
        moves: &mut [7; 10],
        weights: &mut [7; 10],
        node_sets: &mut [7; 10],
        chance_moves: &mut [7; 10],
        payoffs1: &mut [7; 10],
        payoffs2,
    };
    let answer = game_trips::reread_game(given, &mut buffers);
    say(rt, b"fields");
    say_answer(rt, answer, |read| {
        say_numbers(rt, b": given", &[read.nodes, read.sets, read.root_weight]);
    });
    say_numbers(rt, b" set-players", buffers.set_players);
    say_numbers(rt, b" parents", buffers.parents);
    say_numbers(rt, b" payoffs2", buffers.payoffs2);
    say(rt, b"\n");
}

// The fields that were read, with this D0: with a last buffer that has room, and with one that is an entry too short.
fn try_fields(rt: &impl Print, root_weight: u64, read: &GameBuffers<'_>) {
    let given = GameLists {
        root_weight,
        set_players: read.set_players,
        set_moves: read.set_moves,
        kinds: read.kinds,
        parents: read.parents,
        moves: read.moves,
        weights: read.weights,
        node_sets: read.node_sets,
        chance_moves: read.chance_moves,
        payoffs1: read.payoffs1,
        payoffs2: read.payoffs2,
    };
    reread_game(rt, &given, &mut [7i64; 10]);
    reread_game(rt, &given, &mut [7i64; 8]);
}

// The fields of the study game.
fn try_fields_of(rt: &impl Print, game: &[u8]) {
    let mut buffers = GameBuffers {
        set_players: &mut [0; 3],
        set_moves: &mut [0; 3],
        kinds: &mut [0; 9],
        parents: &mut [0; 9],
        moves: &mut [0; 9],
        weights: &mut [0; 9],
        node_sets: &mut [0; 9],
        chance_moves: &mut [0; 9],
        payoffs1: &mut [0; 9],
        payoffs2: &mut [0; 9],
    };
    let _ = fields::game_fields(game, &mut buffers);
    // 2 is not the root's weight, and the last does not fit its field.
    for root_weight in [1, 2, TOO_LARGE] {
        try_fields(rt, root_weight, &buffers);
    }
}

fn main(rt: HostRuntime) {
    let mut game_bytes = [0u8; ROOM];
    let mut m_bytes = [0u8; ROOM];
    let mut f_bytes = [0u8; ROOM];
    let mut refused_bytes = [0u8; ROOM];
    let game = load(&rt, b"game", &mut game_bytes);
    let m = load(&rt, b"m", &mut m_bytes);
    let f = load(&rt, b"f", &mut f_bytes);
    let refused = load(&rt, b"refused", &mut refused_bytes);
    try_game(&rt, game);
    try_game(&rt, refused);
    try_plan(&rt, game, m);
    try_plan(&rt, game, f);
    try_plan(&rt, game, game);
    try_plan(&rt, refused, m);
    try_weights_of(&rt, game, m, refused);
    try_fields_of(&rt, game);
}
