// Tries payoff tables, in columns and as rows, and values: those of each case that the list `cases` names, then the tables of those that `rooms` names, into buffers of each length.
#![tactic(auto)]

ghost use Rattle.std.specs.Prelude.{◌≤◌, All};
ghost use Rattle.model.specs.Limits.{count_limit};

use entry::{PairValues, Row};
use records::NodeRecord;
use trials::refusals::{check_of, taken_in};
use trials::{each_case, each_room, say, say_answer, say_heading, say_number, say_numbers};

// As many rows as the longest table has.
const ROWS: usize = NodeRecord::NODES;

// A longer table is shown by its ends and checks.
const SHOWN: usize = 12;

// The most entries of a buffer that is tried at each length.
const MOST: usize = 8;

// What each row is before the call.
const HELD: Row = Row {
    sequence1: 7,
    sequence2: 7,
    sum1: 7,
    sum2: 7,
};

// A table in columns.
#[derive(Clone, Copy)]
struct Columns<'a> {
    sequence1: &'a [u64],
    sequence2: &'a [u64],
    sum1: &'a [i64],
    sum2: &'a [i64],
}

// A check after one more sum: its sign, 1 below 0 and else 0, and its magnitude are taken in.
fn sum_taken_in(check: u64, sum: i64) -> u64 {
    taken_in(taken_in(check, u64::from(sum < 0)), sum.unsigned_abs())
}

// A check of a column of sums.
fn check_of_sums(sums: &[i64]) -> u64 {
    sums.iter().fold(0, |check, sum| sum_taken_in(check, *sum))
}

// One row of a table.
fn say_row(rt: &impl Print, row: Row) {
    say_numbers(rt, b"row", &[row.sequence1, row.sequence2]);
    say_numbers(rt, b" sums", &[row.sum1, row.sum2]);
    say(rt, b"\n");
}

// The rows from `start` to before `end`.
fn say_rows(rt: &impl Print, table: Columns<'_>, start: usize, end: usize) {
    let sequences = table.sequence1.iter().zip(table.sequence2);
    let sums = table.sum1.iter().zip(table.sum2);
    for ((sequence1, sequence2), (sum1, sum2)) in sequences.zip(sums).take(end).skip(start) {
        let row = Row {
            sequence1: *sequence1,
            sequence2: *sequence2,
            sum1: *sum1,
            sum2: *sum2,
        };
        say_row(rt, row);
    }
}

// A check of each column.
fn say_checks(rt: &impl Print, table: Columns<'_>) {
    let checks = [
        check_of(table.sequence1),
        check_of(table.sequence2),
        check_of_sums(table.sum1),
        check_of_sums(table.sum2),
    ];
    say_numbers(rt, b"checks", &checks);
    say(rt, b"\n");
}

// A table: each of its rows, or those at its ends and a check of each column.
fn say_table(rt: &impl Print, table: Columns<'_>) {
    let rows = table.sum1.len();
    if rows <= SHOWN {
        say_rows(rt, table, 0, rows);
        return;
    }
    say_rows(rt, table, 0, 2);
    say_rows(rt, table, rows - 2, rows);
    say_checks(rt, table);
}

// How many rows stand in buffers that have room for all.
fn within(rows: u64) -> usize
    ensures { result ≤ count_limit }
{
    rows.min(ROWS as u64) as usize
}

// How many rows a table has.
fn say_size(rt: &impl Print, rows: u64) {
    say_number(rt, b": table of ", rows);
}

// The table of a game, made in buffers that are long enough.
fn try_table(rt: &impl Print, game: &[u8]) {
    let mut sequence1 = [7u64; ROWS];
    let mut sequence2 = [7u64; ROWS];
    let mut sum1 = [7i64; ROWS];
    let mut sum2 = [7i64; ROWS];
    let answer = entry::payoff_table(game, &mut sequence1, &mut sequence2, &mut sum1, &mut sum2);
    say_answer(rt, answer, |rows| say_size(rt, rows));
    say(rt, b"\n");
    let rows = within(answer.unwrap_or(0));
    let table = Columns {
        sequence1: &sequence1[..rows],
        sequence2: &sequence2[..rows],
        sum1: &sum1[..rows],
        sum2: &sum2[..rows],
    };
    say_table(rt, table);
}

// The values of a pair.
fn say_values(rt: &impl Print, values: PairValues) {
    say_numbers(rt, b": values", &[values.value1, values.value2]);
    say_numbers(rt, b" best", &[values.best1, values.best2]);
    say_numbers(rt, b" over", &[values.root_weight, values.d1, values.d2]);
}

// What the buffers hold.
fn say_columns(rt: &impl Print, table: Columns<'_>) {
    say_numbers(rt, b" sequence1", table.sequence1);
    say_numbers(rt, b" sequence2", table.sequence2);
    say_numbers(rt, b" sum1", table.sum1);
    say_numbers(rt, b" sum2", table.sum2);
    say(rt, b"\n");
}

// The answer for four buffers, and what they hold afterwards.
fn try_columns(
    rt: &impl Print,
    game: &[u8],
    sequence1: &mut [u64],
    sequence2: &mut [u64],
    sum1: &mut [i64],
    sum2: &mut [i64],
) {
    let answer = entry::payoff_table(game, sequence1, sequence2, sum1, sum2);
    say_answer(rt, answer, |rows| say_size(rt, rows));
    let table = Columns {
        sequence1,
        sequence2,
        sum1,
        sum2,
    };
    say_columns(rt, table);
}

// The line of four buffers of 7s, each cut to its length.
fn try_room(rt: &impl Print, game: &[u8], lengths: [usize; 4])
    requires { All (λ n. n ≤ 8) lengths }
{
    say_numbers(rt, b"room", &lengths);
    let [length1, length2, length3, length4] = lengths;
    let mut sequence1 = [7u64; MOST];
    let mut sequence2 = [7u64; MOST];
    let mut sum1 = [7i64; MOST];
    let mut sum2 = [7i64; MOST];
    try_columns(
        rt,
        game,
        &mut sequence1[..length1],
        &mut sequence2[..length2],
        &mut sum1[..length3],
        &mut sum2[..length4],
    );
}

// Buffers of one length, and each of them by itself of that length.
fn try_rooms(rt: &impl Print, game: &[u8]) {
    for room in 0..=MOST {
        try_room(rt, game, [room, room, room, room]);
        try_room(rt, game, [room, MOST, MOST, MOST]);
        try_room(rt, game, [MOST, room, MOST, MOST]);
        try_room(rt, game, [MOST, MOST, room, MOST]);
        try_room(rt, game, [MOST, MOST, MOST, room]);
    }
}

// The four numbers of a row.
fn say_held(rt: &impl Print, row: Row) {
    say_numbers(rt, b";", &[row.sequence1, row.sequence2]);
    say_numbers(rt, b"", &[row.sum1, row.sum2]);
}

// A check after one more row.
fn row_taken_in(check: u64, row: Row) -> u64 {
    let check = taken_in(taken_in(check, 0), row.sequence1);
    let check = taken_in(taken_in(check, 0), row.sequence2);
    let check = sum_taken_in(check, row.sum1);
    sum_taken_in(check, row.sum2)
}

// What rows hold: each of a few, or a check of all.
fn say_all_held(rt: &impl Print, rows: &[Row]) {
    if rows.len() > MOST {
        let check = rows.iter().fold(0, |check, row| row_taken_in(check, *row));
        say_number(rt, b" check ", check);
        return;
    }
    for row in rows {
        say_held(rt, *row);
    }
}

// The end of the line of some rows: the answer, and what they hold afterwards.
fn try_as_rows(rt: &impl Print, game: &[u8], rows: &mut [Row]) {
    say_answer(rt, entry::payoff_rows(game, rows), |count| {
        say_size(rt, count);
    });
    say_all_held(rt, rows);
    say(rt, b"\n");
}

// The table, in columns and as rows, and the values of a pair.
fn try_pair(rt: &impl Print, name: &[u8], game: &[u8], plan: &[u8]) {
    say(rt, name);
    try_table(rt, game);
    say(rt, name);
    say(rt, b" as rows");
    try_as_rows(rt, game, &mut [HELD; ROWS]);
    say(rt, name);
    say_answer(rt, entry::values(game, plan), |values| {
        say_values(rt, values);
    });
    say(rt, b"\n");
}

fn main(rt: HostRuntime) {
    each_case(&rt, b"cases", |name, game, plan| {
        try_pair(&rt, name, game, plan);
    });
    each_case(&rt, b"rooms", |name, game, _| {
        say_heading(&rt, b"rooms of ", name);
        try_rooms(&rt, game);
        each_room([HELD; MOST], |rows| {
            say_number(&rt, b"rows ", rows.len());
            try_as_rows(&rt, game, rows);
        });
    });
}
