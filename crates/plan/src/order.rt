// Weights by sequence number put back in the order of a plan file.
ghost use Rattle.std.specs.Prelude.{◌≡◌, suc, ◌+◌, ◌-◌, ◌≤◌, length};
ghost use Rattle.algebra.specs.Arrays.{item, placed};
ghost use Rattle.algebra.specs.Bounded.{list_to};
ghost use Rattle.plan.specs.Loaded.{SequencesCounted};
ghost use Rattle.plan.specs.Weights.{weights_of, in_file_order};

use super::move_run::MoveRun;
use loaded::{Counts, Player};

// Puts a player's weights without his denominator into `out`, where his moves stand.
fn put_moves(x: &[u16], run: MoveRun, out: &mut [u64])
    requires { (1 + run.count ≤ length x.now) × (run.before + run.count ≤ length out.old) }
    ensures { out.new ≡ placed run.before (list_to run.count (λ i. item x.now (suc i))) out.old }
{
    for i in 0..run.count {
        out[run.before + i] = loaded::number(x, 1, i) as u64;
    }
}

// Puts all weights into `out` in file order.
pub fn put_weights(counts: Counts, x: &[u16], y: &[u16], out: &mut [u64])
    requires { SequencesCounted counts × (counts.sequences1 ≤ length x.now) × (counts.sequences2 ≤ length y.now) × (weights_of counts ≤ length out.old) }
    ensures { out.new ≡ placed 0 (in_file_order counts x.now y.now) out.old }
{
    let first = MoveRun::of(counts, Player::One);
    let second = MoveRun::of(counts, Player::Two);
    put_moves(x, first, out);
    put_moves(y, second, out);
}
