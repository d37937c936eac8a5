// Values and the verdict as numbers and slices alone, for the exports: the refusal is the result, 0 is none; what is lent for a result
// keeps what it held where the call refuses.
#![tactic(auto)]

ghost use Rattle.std.specs.Prelude.{◌≡◌};
ghost use Rattle.model.specs.Exported.{same, exported, leaves};
ghost use Rattle.model.specs.Calls.Values.{pair_values, values_call};
ghost use Rattle.model.specs.Calls.Verdict.{numbers, verdict_numbers};
ghost use Rattle.model.specs.Demand3.{Demand3MetIn};

// Values, best values, D0, D1 and D2 go to the lent numbers.
pub fn values(
    game: &[u8],
    plan: &[u8],
    value1: &mut i64,
    value2: &mut i64,
    best1: &mut i64,
    best2: &mut i64,
    d0: &mut u64,
    d1: &mut u64,
    d2: &mut u64,
) -> u64
    ensures { leaves result (pair_values value1.new value2.new best1.new best2.new d0.new d1.new d2.new) tt ≡ exported same (pair_values value1.old value2.old best1.old best2.old d0.old d1.old d2.old) (values_call game.now plan.now) }
{
    match verdict::values::values(game, plan) {
        Ok(values) => {
            *value1 = values.value1;
            *value2 = values.value2;
            *best1 = values.best1;
            *best2 = values.best2;
            *d0 = values.root_weight;
            *d1 = values.d1;
            *d2 = values.d2;
            0
        }
        Err(refusal) => refusal.number(),
    }
}

// The player, 1 or 2, or 0 where the pair is accepted, the gain, what it is over and how many sets the strategy covers go to the lent
// numbers, the moves to the buffer. The second `ensures` is demand 3.
pub fn verdict(
    game: &[u8],
    plan: &[u8],
    player: &mut u64,
    gain: &mut i64,
    base: &mut u64,
    count: &mut u64,
    moves: &mut [u64],
) -> u64
    ensures equation { leaves result (numbers player.new gain.new base.new count.new) (moves.new, tt) ≡ verdict_numbers game.now plan.now (numbers player.old gain.old base.old count.old) moves.old }
    ensures promise { Demand3MetIn game.now plan.now moves.old (leaves result (numbers player.new gain.new base.new count.new) (moves.new, tt)) }
{
    match verdict::verdicts::verdict(game, plan, moves) {
        Ok(verdict) => {
            *base = verdict.base;
            let Some(shown) = verdict.deviation else {
                *player = 0;
                *gain = 0;
                *count = 0;
                return 0;
            };
            *player = shown.player.number();
            *gain = shown.gain;
            *count = shown.sets;
            0
        }
        Err(refusal) => refusal.number(),
    }
}
