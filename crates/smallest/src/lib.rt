// The smallest D of a player for which every realization weight is whole, and his weights over it. His sets are taken in the order of their first nodes:
// the probability of each sequence is found in lowest terms from the one before it, and the common multiple of the denominators is tested as it grows.
#![tactic(auto)]

ghost use Rattle.std.specs.Prelude.{◌≡◌, ◌*◌, ◌/◌, ◌≤◌, ◌<◌, length};
ghost use Rattle.algebra.specs.Arrays.{item, over};
ghost use Rattle.algebra.specs.Divisors.{lcm};
ghost use Rattle.model.specs.Limits.{count_limit, weight_limit};
ghost use Rattle.model.specs.Game.{Game};
ghost use Rattle.model.specs.Sheet.{Odds};
ghost use Rattle.loaded.specs.Players.{as_player};
ghost use Rattle.loaded.specs.Loaded.{NumbersLoaded};
ghost use Rattle.plan.specs.Loaded.{LoadedIn};
ghost use Rattle.sheets.specs.OddsByNumber.{OddsByNumber};
ghost use Rattle.smallest.specs.Fractions.{Proper, times_odds, capped};
ghost use Rattle.smallest.specs.Multiples.{SetAsked, SetFilled, Probabilities, NextAsked, NextMultiple, AllAsked, Smallest, Scalable, Weighed};

use loaded::{Counts, Player, SetSequences};
use records::NodeRecord;

// A probability, as a fraction of whole numbers.
#[derive(Clone, Copy)]
pub struct Probability {
    pub numerator: u64,
    pub denominator: u64,
}

// The probability of a sequence with one more move, of these odds at a set with this total of odds, in lowest terms: 0 over 1 where it is never played.
fn extended(before: Probability, odds: u64, total: u64) -> Probability
    requires { Proper before × (odds ≤ weight_limit) × (total ≤ 64 * weight_limit) }
    ensures { result ≡ times_odds before odds total }
{
    let numerator = before.numerator * odds;
    if numerator == 0 {
        return Probability {
            numerator: 0,
            denominator: 1,
        };
    }
    let denominator = before.denominator * total;
    let divisor = divisors::gcd(numerator, denominator);
    Probability {
        numerator: numerator / divisor,
        denominator: denominator / divisor,
    }
}

// The least common multiple of two numbers, where it is within the limit.
fn common_multiple(a: u64, b: u64, limit: u64) -> Option<u64>
    requires { (0 < a) × (a ≤ weight_limit) × (b ≤ weight_limit * (64 * weight_limit)) }
    ensures { result ≡ capped limit (lcm a b) }
{
    let multiple = a * (b / divisors::gcd(a, b));
    if multiple <= limit {
        Some(multiple)
    } else {
        None
    }
}

// Puts the probabilities of a set's sequences, after that of the one that leads to it, and gives the common multiple with their denominators. Once that is above the limit there is none, and the rest is not put.
fn fill_set(
    set: SetSequences,
    before: Probability,
    total: u64,
    x: &[u16],
    numerators: &mut [u16],
    denominators: &mut [u16],
    multiple: u64,
    limit: u64,
) -> Option<u64>
    requires { SetAsked set before total x.now numerators.old denominators.old multiple limit }
    ensures { SetFilled set before total x.now multiple limit result numerators.old numerators.new denominators.old denominators.new }
{
    let mut common = multiple;
    for m in 0..set.moves {
        let next = extended(before, loaded::number(x, set.start, m) as u64, total);
        common = common_multiple(common, next.denominator, limit)?;
        loaded::put(numerators, set.start, m, next.numerator as usize);
        loaded::put(denominators, set.start, m, next.denominator as usize);
    }
    Some(common)
}

// The common multiple with the set at place `i` of the order, where it is the player's and that is within the limit; its probabilities are put then.
fn next_multiple(
    numbers: &[u16],
    i: usize,
    player: Player,
    x: &[u16],
    numerators: &mut [u16],
    denominators: &mut [u16],
    multiple: u64,
    limit: u64,
) -> Option<u64>
    requires { NextAsked i (as_player player) numbers.now x.now numerators.old denominators.old multiple limit }
    ensures { (g : Game) → (c : Counts) → (odds : Odds) → NumbersLoaded g c numbers.now → i < g.sets → OddsByNumber g (as_player player) odds x.now → Probabilities g odds (as_player player) i numerators.old denominators.old → NextMultiple g odds (as_player player) i multiple limit result numerators.new denominators.new }
{
    let Some(set) = sheets::own_set(numbers, i, player) else {
        return Some(multiple);
    };
    let total = plan::moves_total(x, set.start, set.moves) as u64;
    let before = Probability {
        numerator: u64::from(numerators[set.lead]),
        denominator: u64::from(denominators[set.lead]),
    };
    fill_set(
        set,
        before,
        total,
        x,
        numerators,
        denominators,
        multiple,
        limit,
    )
}

// The smallest D of a player, where it is within the limit; the probabilities of his sequences are put by their numbers.
fn smallest(
    numbers: &[u16],
    sets: usize,
    player: Player,
    x: &[u16],
    numerators: &mut [u16],
    denominators: &mut [u16],
    limit: u64,
) -> Option<u64>
    requires { AllAsked sets numbers.now x.now numerators.old denominators.old limit }
    ensures { (g : Game) → (c : Counts) → (odds : Odds) → NumbersLoaded g c numbers.now → sets ≡ g.sets → OddsByNumber g (as_player player) odds x.now → Smallest g odds (as_player player) limit result numerators.new denominators.new }
{
    loaded::put(numerators, 0, 0, 1);
    loaded::put(denominators, 0, 0, 1);
    let mut multiple = 1;
    for i in 0..sets {
        multiple = next_multiple(
            numbers,
            i,
            player,
            x,
            numerators,
            denominators,
            multiple,
            limit,
        )?;
    }
    Some(multiple)
}

// Probabilities times `d`, by the numbers of their sequences.
fn scale(numerators: &[u16], denominators: &[u16], count: usize, d: u64, x: &mut [u16])
    requires { Scalable count d numerators.now denominators.now x.old }
    ensures { x.new ≡ over (λ k. d / item denominators.now k * item numerators.now k) count x.old }
{
    for k in 0..count {
        let share = d / u64::from(denominators[k]);
        x[k] = (share * u64::from(numerators[k])) as u16;
    }
}

// A player's weights over his smallest D, in place of his odds by sequence number, and that D. Where it is above the limit there is none, and nothing is changed.
pub fn weigh(
    numbers: &[u16],
    counts: Counts,
    player: Player,
    x: &mut [u16],
    limit: u64,
) -> Option<u64>
    requires { LoadedIn counts numbers.now × (count_limit ≤ length x.old) × (0 < limit) × (limit ≤ weight_limit) }
    ensures { (g : Game) → (odds : Odds) → NumbersLoaded g counts numbers.now → OddsByNumber g (as_player player) odds x.old → Weighed g odds (as_player player) limit result x.old x.new }
{
    // Two arrays of 16-bit parts: a `Probability` has room for what is found on the way.
    let mut numerators = [0u16; NodeRecord::NODES];
    let mut denominators = [0u16; NodeRecord::NODES];
    let d = smallest(
        numbers,
        counts.sets,
        player,
        x,
        &mut numerators,
        &mut denominators,
        limit,
    )?;
    let side = counts.side(player);
    scale(&numerators, &denominators, side.sequences, d, x);
    Some(d)
}
