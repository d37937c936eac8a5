// Times best responses by themselves. The game is loaded once; then player 1's best response is computed against player 2's weights as often as the two bytes of the file `times` say, high byte first.
// Two runs that differ in that number alone differ by the time of the best responses.
#![tactic(auto)]

ghost use Rattle.std.specs.Prelude.{◌≡◌};
ghost use Rattle.model.specs.Game.{one};
ghost use Rattle.responses.specs.Responses.{ResponseAsked};

use loaded::{LoadedGame, Player, Section};
use records::NodeRecord;
use std::rt::Files;
use trials::{ROOM, load, say, say_number};

// A line with the best move of set 0, or 0 where that is player 2's.
fn say_move(rt: &impl Print, number: u16) {
    say_number(rt, b"best move of set 0: ", number);
    say(rt, b"\n");
}

// The best responses, over the loaded game: the last one's best move of set 0.
fn repeat(game: &LoadedGame<'_>, y: &[u16], times: u16) -> u16
    requires { ResponseAsked game.now one y.now }
{
    let mut sums = [0i64; NodeRecord::NODES];
    let mut worths = [0i64; NodeRecord::NODES];
    let mut moves = [0u16; NodeRecord::NODES];
    for _ in 0..times {
        responses::best_response(game, Player::One, y, &mut sums, &mut worths, &mut moves);
    }
    moves[0]
}

// On both files.
fn run(rt: &impl Print, game: &[u8], plan: &[u8], times: u16) {
    let mut numbers = [0u16; Section::NUMBERS];
    let mut payoffs = [0i16; Section::PAYOFFS];
    let mut x = [0u16; NodeRecord::NODES];
    let mut y = [0u16; NodeRecord::NODES];
    let Ok(pair) = pair::read(game, plan, &mut numbers, &mut payoffs, &mut x, &mut y) else {
        say(rt, b"refused\n");
        return;
    };
    let game = LoadedGame {
        numbers: &numbers,
        payoffs: &payoffs,
        counts: pair.counts,
    };
    say_move(rt, repeat(&game, &y, times));
}

// How often.
fn times(rt: &(impl Files + Print)) -> u16 {
    let mut bytes = [0u8; 2];
    load(rt, b"times", &mut bytes);
    u16::from_be_bytes(bytes)
}

fn main(rt: HostRuntime) {
    let mut game = [0u8; ROOM];
    let mut plan = [0u8; ROOM];
    let game_file = load(&rt, b"game.bin", &mut game);
    let plan_file = load(&rt, b"plan.bin", &mut plan);
    run(&rt, game_file, plan_file, times(&rt));
}
