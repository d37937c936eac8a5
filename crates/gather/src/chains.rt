// The sets that each sequence leads to, as chains, rising.
ghost use Rattle.std.specs.Prelude.{◌≡◌, ◌+◌, ◌<◌};
ghost use Rattle.algebra.specs.Sections.{Apart};
ghost use Rattle.model.specs.Game.{Game, one, two};
ghost use Rattle.model.specs.Sequences.{sequence_count};
ghost use Rattle.loaded.specs.Sections.{head_section_of, numbers_room};
ghost use Rattle.gather.specs.Numbered.{Numbered, NumberedIn};
ghost use Rattle.gather.specs.Gathered.{ChainsFrom, Chained};

use loaded::Section;

// Set `h` at the head of the chain of the sequence that leads to it.
fn link(numbers: &mut [u16], h: usize)
    requires { NumberedIn (λ g. h < g.sets) numbers.old }
    ensures { Apart (head_section_of one) numbers_room numbers.old numbers.new × ((g : Game) → h < g.sets → Numbered g numbers.old → ChainsFrom g (h + 1) numbers.old → ChainsFrom g h numbers.new) }
{
    let heads = loaded::owner(numbers, h).head_section();
    let lead = loaded::number(numbers, Section::LEAD, h);
    let next = loaded::number(numbers, heads, lead);
    loaded::put(numbers, Section::NEXT, h, next);
    loaded::put(numbers, heads, lead, h);
}

// By sequence of each player the first set that it leads to, and by set the next one that the same sequence leads to; the
// number of sets where there is none. They are filled from the last set to the first.
pub fn chains(numbers: &mut [u16], sets: usize, sequences1: usize, sequences2: usize)
    requires { NumberedIn (λ g. (sets ≡ g.sets) × (sequences1 ≡ sequence_count g one) × (sequences2 ≡ sequence_count g two)) numbers.old }
    ensures { Apart (head_section_of one) numbers_room numbers.old numbers.new × ((g : Game) → sets ≡ g.sets → sequences1 ≡ sequence_count g one → sequences2 ≡ sequence_count g two → Numbered g numbers.old → Chained g numbers.new) }
{
    loaded::fill(numbers, Section::HEAD1, sequences1, sets);
    loaded::fill(numbers, Section::HEAD2, sequences2, sets);
    for h in (0..sets).rev() {
        link(numbers, h);
    }
}
