// The calls for Rust and C: numbers, slices and references alone.
// A refusal is the result, 0 is none; what is lent for a result keeps what it held where the call refuses.
// Each is one equation: what it returns, and what the lent numbers and buffers hold then, is the model's call, exported.
// A second `ensures` says what the outcome means: of `desk_verdict` it is demand 3, of the others what document 02 asks for.
// The comment above an export is its comment in include/desk.h too, which native/derived_files writes.
#![tactic(auto)]

ghost use Rattle.std.specs.Prelude.{◌≡◌};
ghost use Rattle.model.specs.Writing.{game_fields_of, field_lists};
ghost use Rattle.model.specs.Exported.{none, same, exported, leaves};
ghost use Rattle.model.specs.Calls.CheckGame.{counts, check_game_of};
ghost use Rattle.model.specs.Calls.GameFields as Fields;
ghost use Rattle.model.specs.Calls.CheckPlan.{denominators};
ghost use Rattle.model.specs.Calls.PlanFields.{plan_fields_of, denominators_in};
ghost use Rattle.model.specs.Calls.PayoffTable.{payoff_columns};
ghost use Rattle.model.specs.Calls.Values.{pair_values, values_call};
ghost use Rattle.model.specs.Calls.Verdict.{numbers, verdict_numbers};
ghost use Rattle.model.specs.Calls.Tolerance.{tolerates, ToleranceMet, passes_number, answer_in};
ghost use Rattle.model.specs.Calls.Report.{report_call};
ghost use Rattle.model.specs.Calls.RefusalLine.{refusal_line_of};
ghost use Rattle.model.specs.Plan.{weight_width, largest_denominator};
ghost use Rattle.model.specs.PlanChecks.{files};
ghost use Rattle.model.specs.Calls.PlanFromSheet.{sheet_files, MakesIn, plan_from_sheet_of};
ghost use Rattle.model.specs.Calls.SheetFromPlan.{ReturnsIn, sheet_from_plan_of};
ghost use Rattle.model.specs.Calls.WriteGame.{write_game_of};
ghost use Rattle.model.specs.Calls.WritePlan.{write_plan_of};
ghost use Rattle.model.specs.Demand3.{Demand3MetIn};

use columns::GameBuffers;
use fitting::GameLists;

// Checks a game file: its node count N, its set count H and its root chance weight D0.
#[unsafe(no_mangle)]
pub extern "C" fn desk_check_game(
    game: &[u8],
    nodes: &mut u64,
    sets: &mut u64,
    root_weight: &mut u64,
) -> u64
    ensures { leaves result (counts nodes.new sets.new root_weight.new) tt ≡ exported same (counts nodes.old sets.old root_weight.old) (check_game_of game.now) }
{
    exported_game::check_game(game, nodes, sets, root_weight)
}

// All fields of a game, one buffer each. By set, H entries: player (0 is player 1) and move count.
// By node, N entries: kind (0 leaf, 1 decision, 2 chance), parent, move at the parent, chance
// weight, a decision's set, a chance node's move count and a leaf's two payoffs; what a kind lacks
// is 0.
#[unsafe(no_mangle)]
pub extern "C" fn desk_game_fields(
    game: &[u8],
    set_players: &mut [u64],
    set_moves: &mut [u64],
    kinds: &mut [u64],
    parents: &mut [u64],
    moves: &mut [u64],
    weights: &mut [u64],
    node_sets: &mut [u64],
    chance_moves: &mut [u64],
    payoffs1: &mut [i64],
    payoffs2: &mut [i64],
) -> u64
    ensures { leaves result tt (Fields.lists (field_lists set_players.new set_moves.new kinds.new parents.new moves.new weights.new node_sets.new chance_moves.new payoffs1.new payoffs2.new)) ≡ exported none tt (Fields.game_fields_of game.now (Fields.lists (field_lists set_players.old set_moves.old kinds.old parents.old moves.old weights.old node_sets.old chance_moves.old payoffs1.old payoffs2.old))) }
{
    let mut buffers = GameBuffers {
        set_players,
        set_moves,
        kinds,
        parents,
        moves,
        weights,
        node_sets,
        chance_moves,
        payoffs1,
        payoffs2,
    };
    exported_game::game_fields(game, &mut buffers)
}

// D1, D2 and all weights of a plan, in file order: one for each move of each set.
#[unsafe(no_mangle)]
pub extern "C" fn desk_plan_fields(
    game: &[u8],
    plan: &[u8],
    d1: &mut u64,
    d2: &mut u64,
    weights: &mut [u64],
) -> u64
    ensures { leaves result (denominators d1.new d2.new) (weights.new, tt) ≡ exported denominators_in (denominators d1.old d2.old) (plan_fields_of game.now plan.now weights.old) }
{
    exported_plan::plan_fields(game, plan, d1, d2, weights)
}

// The payoff table, one buffer a column, and how many rows it has: no more than there are leaves.
#[unsafe(no_mangle)]
pub extern "C" fn desk_payoff_table(
    game: &[u8],
    sequence1: &mut [u64],
    sequence2: &mut [u64],
    sum1: &mut [i64],
    sum2: &mut [i64],
    rows: &mut u64,
) -> u64
    ensures { leaves result rows.new (sequence1.new, (sequence2.new, (sum1.new, (sum2.new, tt)))) ≡ exported same rows.old (payoff_columns game.now (sequence1.old, (sequence2.old, (sum1.old, (sum2.old, tt))))) }
{
    exported_table::payoff_table(game, sequence1, sequence2, sum1, sum2, rows)
}

// Values over D0 × D1 × D2; player 1's best value over D0 × D2 and player 2's over D0 × D1;
// and D0, D1 and D2.
#[unsafe(no_mangle)]
pub extern "C" fn desk_values(
    game: &[u8],
    plan: &[u8],
    value1: &mut i64,
    value2: &mut i64,
    best1: &mut i64,
    best2: &mut i64,
    d0: &mut u64,
    d1: &mut u64,
    d2: &mut u64,
) -> u64
    ensures { leaves result (pair_values value1.new value2.new best1.new best2.new d0.new d1.new d2.new) tt ≡ exported same (pair_values value1.old value2.old best1.old best2.old d0.old d1.old d2.old) (values_call game.now plan.now) }
{
    exported_verdict::values(game, plan, value1, value2, best1, best2, d0, d1, d2)
}

// The verdict: `player` is 0 where the pair is accepted, else the player, 1 or 2, who is shown to
// gain. His gain is `gain` / `base`, where `base` is D0 × D1 × D2, and the shown strategy takes
// `moves[0]` to `moves[count - 1]` in his sets, in the order of their numbers. An accepted pair has
// `gain` and `count` 0 and needs no room. 4,095 entries are always enough.
#[unsafe(no_mangle)]
pub extern "C" fn desk_verdict(
    game: &[u8],
    plan: &[u8],
    player: &mut u64,
    gain: &mut i64,
    base: &mut u64,
    count: &mut u64,
    moves: &mut [u64],
) -> u64
    ensures equation { leaves result (numbers player.new gain.new base.new count.new) (moves.new, tt) ≡ verdict_numbers game.now plan.now (numbers player.old gain.old base.old count.old) moves.old }
    ensures promise { Demand3MetIn game.now plan.now moves.old (leaves result (numbers player.new gain.new base.new count.new) (moves.new, tt)) }
{
    exported_verdict::verdict(game, plan, player, gain, base, count, moves)
}

// Whether a pair passes at a tolerance, given in thousandths of a payoff point: `passes` is 1 where
// neither player has a strategy that gains more than `tolerance` / 1000, else 0.
#[unsafe(no_mangle)]
pub extern "C" fn desk_tolerates(game: &[u8], plan: &[u8], tolerance: u16, passes: &mut u64) -> u64
    ensures equation { leaves result passes.new tt ≡ exported passes_number passes.old (tolerates tolerance game.now plan.now) }
    ensures promise { ToleranceMet tolerance game.now plan.now (answer_in (leaves result passes.new tt)) }
{
    exported_tolerance::tolerates(game, plan, tolerance, passes)
}

// What the desk program prints for two files that are not sent back, and how many bytes it has.
// 69,864 bytes are always enough.
#[unsafe(no_mangle)]
pub extern "C" fn desk_report(game: &[u8], plan: &[u8], out: &mut [u8], size: &mut u64) -> u64
    ensures { leaves result size.new (out.new, tt) ≡ exported same size.old (report_call game.now plan.now out.old) }
{
    exported_report::report(game, plan, out, size)
}

// What the desk program prints for a refusal's number, and how many bytes it has.
// 29 bytes are always enough.
#[unsafe(no_mangle)]
pub extern "C" fn desk_refusal_line(number: u64, out: &mut [u8], size: &mut u64) -> u64
    ensures { leaves result size.new (out.new, tt) ≡ exported same size.old (refusal_line_of number out.old) }
{
    exported_report::refusal_line(number, out, size)
}

// Makes the plan of a play sheet, and gives the length of its file.
#[unsafe(no_mangle)]
pub extern "C" fn desk_plan_from_sheet(
    game: &[u8],
    sheet: &[u8],
    out: &mut [u8],
    size: &mut u64,
) -> u64
    ensures equation { leaves result size.new (out.new, tt) ≡ exported same size.old (plan_from_sheet_of game.now sheet.now out.old) }
    ensures promise { MakesIn weight_width largest_denominator (sheet_files game.now sheet.now) out.old (leaves result size.new (out.new, tt)) }
{
    exported_sheets::plan_from_sheet(game, sheet, out, size)
}

// Makes the play sheet of a plan, and gives its length.
#[unsafe(no_mangle)]
pub extern "C" fn desk_sheet_from_plan(
    game: &[u8],
    plan: &[u8],
    out: &mut [u8],
    size: &mut u64,
) -> u64
    ensures equation { leaves result size.new (out.new, tt) ≡ exported same size.old (sheet_from_plan_of game.now plan.now out.old) }
    ensures promise { ReturnsIn weight_width largest_denominator (files game.now plan.now) out.old (leaves result size.new (out.new, tt)) }
{
    exported_sheets::sheet_from_plan(game, plan, out, size)
}

// Writes a plan file, from D1, D2 and all weights as one list in file order, and gives its length.
#[unsafe(no_mangle)]
pub extern "C" fn desk_write_plan(
    d1: u64,
    d2: u64,
    weights: &[u64],
    out: &mut [u8],
    size: &mut u64,
) -> u64
    ensures { leaves result size.new (out.new, tt) ≡ exported same size.old (write_plan_of d1 d2 weights.now out.old) }
{
    exported_writers::write_plan(d1, d2, weights, out, size)
}

// Writes a game file, from D0 and all fields as `desk_game_fields` gives them, and gives its length.
#[unsafe(no_mangle)]
pub extern "C" fn desk_write_game(
    root_weight: u64,
    set_players: &[u64],
    set_moves: &[u64],
    kinds: &[u64],
    parents: &[u64],
    moves: &[u64],
    weights: &[u64],
    node_sets: &[u64],
    chance_moves: &[u64],
    first_payoffs: &[i64],
    second_payoffs: &[i64],
    out: &mut [u8],
    size: &mut u64,
) -> u64
    ensures { leaves result size.new (out.new, tt) ≡ exported same size.old (write_game_of (game_fields_of root_weight set_players.now set_moves.now kinds.now parents.now moves.now weights.now node_sets.now chance_moves.now first_payoffs.now second_payoffs.now) out.old) }
{
    let lists = GameLists {
        root_weight,
        set_players,
        set_moves,
        kinds,
        parents,
        moves,
        weights,
        node_sets,
        chance_moves,
        payoffs1: first_payoffs,
        payoffs2: second_payoffs,
    };
    exported_writers::write_game(&lists, out, size)
}
