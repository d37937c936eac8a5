// Worths of sequences and of sets over a loaded game.
ghost use Rattle.std.specs.Prelude.{◌≡◌, ◌≤◌, length};
ghost use Rattle.model.specs.Limits.{count_limit};
ghost use Rattle.model.specs.Game.{Game};
ghost use Rattle.model.specs.Plan.{RealizationPlan};
ghost use Rattle.model.specs.BestResponse.{best_count};
ghost use Rattle.loaded.specs.Players.{as_player};
ghost use Rattle.responses.specs.Worths.{SumsHeld, WorthsHeld, WorthsAsked, SequenceAsked, SequenceGiven, SetAsked, SetGiven};

use loaded::{Counts, Player, Section, number};

// One player's play: a loaded game's numbers, what the leaves at each of his sequences are worth, where the first sets that these lead to begin, and how many sets there are.
#[derive(Clone, Copy)]
struct Play<'a> {
    numbers: &'a [u16],
    sums: &'a [i64],
    heads: usize,
    sets: usize,
}

impl Play<'_> {
    // The worth of sequence `s`: that of its leaves, and that of each set it leads to. It is stored, as are those of all sequences after it.
    #[cycle(worth)]
    fn sequence_worth(&self, worths: &mut [i64], s: usize) -> i64
        requires { SequenceAsked self.now worths.old s }
        ensures { SequenceGiven self.now s worths.old worths.new result }
    {
        let mut sum = self.sums[s];
        let mut at = number(self.numbers, self.heads, s);
        // The sets are a chain, and not a range.
        while at < self.sets {
            sum += self.set_worth(worths, at);
            at = number(self.numbers, Section::NEXT, at);
        }
        worths[s] = sum;
        sum
    }

    // The same, without a further call where the sequence leads to no set.
    #[cycle(worth)]
    fn move_worth(&self, worths: &mut [i64], s: usize) -> i64
        requires { SequenceAsked self.now worths.old s }
        ensures { SequenceGiven self.now s worths.old worths.new result }
    {
        if number(self.numbers, self.heads, s) < self.sets {
            return self.sequence_worth(worths, s);
        }
        let sum = self.sums[s];
        worths[s] = sum;
        sum
    }

    // The worth of set `h`: that of its worthiest move. The worths of all sequences after it are stored.
    #[cycle(worth)]
    fn set_worth(&self, worths: &mut [i64], h: usize) -> i64
        requires { SetAsked self.now worths.old h }
        ensures { SetGiven self.now h worths.old worths.new result }
    {
        let s = number(self.numbers, Section::START, h);
        let moves = number(self.numbers, Section::MOVES, h);
        let first = self.move_worth(worths, s);
        let mut top = first;
        for m in 1..moves {
            let other = self.move_worth(worths, s + m);
            top = top.max(other);
        }
        top
    }
}

// The worth of the empty sequence, which is the best value; that of every sequence is stored at its number.
pub fn worths(
    numbers: &[u16],
    sums: &[i64],
    counts: Counts,
    player: Player,
    worths: &mut [i64],
) -> i64
    requires { WorthsAsked counts numbers.now sums.now (as_player player) × (count_limit ≤ length worths.old) }
    ensures { (g : Game) (y : RealizationPlan) → SumsHeld g (as_player player) y counts numbers.now sums.now → (result ≡ best_count g (as_player player) y) × WorthsHeld g (as_player player) y counts numbers.now worths.new }
{
    let side = counts.side(player);
    let play = Play {
        numbers,
        sums,
        heads: side.heads,
        sets: counts.sets,
    };
    play.sequence_worth(worths, 0)
}
