// Tries the writers: a line for each case that the lists `games` and `plans` name, then lists of thousands of entries.
// A case's file is words of 64 bits, most significant byte first, each at a fixed place.
#![tactic(auto)]

ghost use Rattle.std.specs.Prelude.{◌≤◌, ◌^◌, length};

use entry::{GameLists, Refusal};
use records::NodeRecord;
use trials::{ROOM, each_named_file, say, say_buffer, say_number, say_written};

// One more than a game has nodes or sets.
const TOO_MANY: usize = NodeRecord::NODES + 1;

// The most words of a case: a game's room and D0, then ten lists of a count and 16 entries.
const WORDS: usize = 172;

// The most entries of a list in a case.
const ENTRIES: usize = 16;

// The most bytes lent to the writer of a case.
const MOST: usize = 96;

// What each lent byte is before the call.
const HELD: u8 = 165;

// How many bytes of a longer buffer are shown.
const SHOWN: usize = 8;

// A number from a file as a length of at most `most`.
fn at_most(number: u64, most: usize) -> usize
    ensures { result ≤ most }
{
    number.min(most as u64) as usize
}

// Of the list whose count stands at word `at`, the entries as they are in `entries`.
fn list<'a, T>(words: &[u64; WORDS], entries: &'a [T; WORDS], at: usize) -> &'a [T]
    requires { at ≤ 155 }
    ensures { length result.now ≤ 16 }
{
    let start = at + 1;
    let end = start + at_most(words[at], ENTRIES);
    let all = &entries[..];
    &all[start..end]
}

// Writes the game that the words give, its payoffs in two's complement.
fn write_game(words: &[u64; WORDS], out: &mut [u8]) -> Result<usize, Refusal> {
    let signed = words.map(|word| word.cast_signed());
    let lists = GameLists {
        root_weight: words[1],
        set_players: list(words, words, 2),
        set_moves: list(words, words, 19),
        kinds: list(words, words, 36),
        parents: list(words, words, 53),
        moves: list(words, words, 70),
        weights: list(words, words, 87),
        node_sets: list(words, words, 104),
        chance_moves: list(words, words, 121),
        payoffs1: list(words, &signed, 138),
        payoffs2: list(words, &signed, 155),
    };
    entry::write_game(&lists, out)
}

// Writes the plan that the words give.
fn write_plan(words: &[u64; WORDS], out: &mut [u8]) -> Result<usize, Refusal> {
    entry::write_plan(words[1], words[2], list(words, words, 3), out)
}

// The words of a case's file; 0 past its end.
fn read_words(file: &[u8]) -> [u64; WORDS] {
    let mut words = [0u64; WORDS];
    for (word, bytes) in words.iter_mut().zip(file.chunks(8)) {
        *word = bits::read_field(bytes, 0, 64);
    }
    words
}

// The line of one case: the answer to what the words give, and what a buffer cut to the length that the first gives holds afterwards.
fn try_case<F: FnOnce(&[u64; WORDS], &mut [u8]) -> Result<usize, Refusal>>(
    rt: &impl Print,
    name: &[u8],
    file: &[u8],
    write: F,
)
    requires { F.IsAlwaysCallable write }
{
    let words = read_words(file);
    let mut buffer = [HELD; MOST];
    let out = &mut buffer[..at_most(words[0], MOST)];
    say(rt, name);
    say_written(rt, write(&words, out));
    say_buffer(rt, out);
}

// The answer, and the first bytes of a buffer that has room for any file.
fn try_long<F: FnOnce(&mut [u8]) -> Result<usize, Refusal>>(rt: &impl Print, write: F)
    requires { F.IsAlwaysCallable write }
{
    let mut buffer = [HELD; ROOM];
    say_written(rt, write(&mut buffer));
    say_buffer(rt, &buffer[..SHOWN]);
}

// Writes a game with D0 = 1 whose lists of sets are one list, and those of nodes another.
fn write_alike(
    sets: &[u64],
    nodes: &[u64],
    payoffs: &[i64],
    out: &mut [u8],
) -> Result<usize, Refusal> {
    let lists = GameLists {
        root_weight: 1,
        set_players: sets,
        set_moves: sets,
        kinds: nodes,
        parents: nodes,
        moves: nodes,
        weights: nodes,
        node_sets: nodes,
        chance_moves: nodes,
        payoffs1: payoffs,
        payoffs2: payoffs,
    };
    entry::write_game(&lists, out)
}

// The line of a game of so many sets and nodes, all their fields 0.
fn try_long_game(rt: &impl Print, sets: usize, nodes: usize)
    requires { (sets ≤ 2 ^ 12) × (nodes ≤ 2 ^ 12) }
{
    say_number(rt, b"", sets);
    say_number(rt, b" sets and ", nodes);
    say(rt, b" nodes");
    let zeros = [0u64; TOO_MANY];
    let payoffs = [0i64; TOO_MANY];
    try_long(rt, |out| {
        write_alike(&zeros[..sets], &zeros[..nodes], &payoffs[..nodes], out)
    });
}

// The line of a plan with D1 = D2 = 1 of so many weights, all of them 1.
fn try_long_plan(rt: &impl Print, count: usize)
    requires { count ≤ 5001 }
{
    say_number(rt, b"", count);
    say(rt, b" weights");
    let ones = [1u64; 5001];
    try_long(rt, |out| entry::write_plan(1, 1, &ones[..count], out));
}

fn main(rt: HostRuntime) {
    each_named_file(&rt, b"games", |name, file| {
        try_case(&rt, name, file, |words, out| write_game(words, out));
    });
    each_named_file(&rt, b"plans", |name, file| {
        try_case(&rt, name, file, |words, out| write_plan(words, out));
    });
    try_long_game(&rt, NodeRecord::NODES, 0);
    try_long_game(&rt, TOO_MANY, 0);
    try_long_game(&rt, 0, NodeRecord::NODES);
    try_long_game(&rt, 0, TOO_MANY);
    try_long_game(&rt, NodeRecord::NODES, NodeRecord::NODES);
    try_long_game(&rt, TOO_MANY, TOO_MANY);
    try_long_plan(&rt, NodeRecord::NODES);
    try_long_plan(&rt, 5001);
}
