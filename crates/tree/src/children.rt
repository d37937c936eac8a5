// Checks 9 and 10: the children of each node, by their moves and by their weights.
ghost use Rattle.std.specs.Prelude.{◌≡◌, ℕ, ◌-◌, ◌/◌, ◌%◌, ◌^◌, ◌≤◌, ◌<◌, replicate};
ghost use Rattle.algebra.specs.Bounded.{all_to};
ghost use Rattle.algebra.specs.Arrays.{Holds};
ghost use Rattle.model.specs.Limits.{count_limit};
ghost use Rattle.model.specs.Game.{Game};
ghost use Rattle.model.specs.GameChecks.{moves_lead_on_of, children_weight, weights_obey_rules_of};
ghost use Rattle.checks.specs.declared.Refusal.TheVariants.{MissingMove, ChanceWeights};
ghost use Rattle.checks.specs.Answers.{checked_of};
ghost use Rattle.tree.specs.Games.{TreeIn};
ghost use Rattle.tree.specs.Children.{Marked, complete, Swept, weight_test};

use super::each_node;
use checks::Refusal;
use loaded::Section;
use records::{Kind, NodeRecord};

// Bit `m` of a number, from the least significant.
fn bit_of(x: u64, m: usize) -> u64
    requires { m < 64 }
    ensures { result ≡ x / 2 ^ m % 2 }
{
    (x >> m) % 2
}

// The number whose lowest `k` bits are ones, up to all 64.
fn ones(k: usize) -> u64
    requires { k ≤ 64 }
    ensures { result ≡ 2 ^ k - 1 }
{
    if k == 64 {
        return u64::MAX;
    }
    bits::power(k) - 1
}

// One pass over the nodes: a bit for each move met at each parent, until one is met twice.
fn mark_moves(
    numbers: &[u16],
    nodes: usize,
    seen: &mut [u64; NodeRecord::NODES],
) -> Result<(), Refusal>
    requires { (g : Game) × TreeIn nodes numbers.now g × (seen.old ≡ replicate count_limit 0) }
    ensures { (g : Game) → TreeIn nodes numbers.now g → Swept g result seen.new }
{
    for n in 1..nodes {
        let parent = loaded::number(numbers, Section::PARENT, n);
        let place = loaded::number(numbers, Section::PLACE, n);
        let met = seen[parent];
        if bit_of(met, place) != 0 {
            return Err(Refusal::MissingMove);
        }
        seen[parent] = met + bits::power(place);
    }
    Ok(())
}

// Whether the bits met at each node are all its moves.
fn all_complete(
    numbers: &[u16],
    nodes: usize,
    seen: &[u64; NodeRecord::NODES],
) -> Result<(), Refusal>
    requires { (g : Game) × TreeIn nodes numbers.now g }
    ensures { (g : Game) → TreeIn nodes numbers.now g → Marked g g.nodes seen.now → result ≡ checked_of MissingMove (all_to g.nodes (complete g)) }
{
    for n in 0..nodes {
        let moves = each_node::move_count(numbers, n);
        if seen[n] != ones(moves) {
            return Err(Refusal::MissingMove);
        }
    }
    Ok(())
}

// Check 9.
pub fn moves_lead_on(numbers: &[u16], nodes: usize) -> Result<(), Refusal>
    requires { (g : Game) × TreeIn nodes numbers.now g }
    ensures { (g : Game) → TreeIn nodes numbers.now g → result ≡ checked_of MissingMove (moves_lead_on_of g) }
{
    let mut seen = [0u64; NodeRecord::NODES];
    mark_moves(numbers, nodes, &mut seen)?;
    all_complete(numbers, nodes, &seen)
}

// One pass over the nodes: each one's weight is added at its parent.
fn add_weights(numbers: &[u16], nodes: usize, sums: &mut [u32; NodeRecord::NODES])
    requires { (g : Game) × TreeIn nodes numbers.now g × (sums.old ≡ replicate count_limit 0) }
    ensures { (g : Game) → TreeIn nodes numbers.now g → Holds (children_weight g) g.nodes sums.new }
{
    for n in 1..nodes {
        let parent = loaded::number(numbers, Section::PARENT, n);
        let weight = loaded::number(numbers, Section::WEIGHT, n);
        sums[parent] += weight as u32;
    }
}

// Whether node `n`'s weight is not zero and keeps its rule; `sum` is that of its children's weights.
fn weight_right(numbers: &[u16], n: usize, root_weight: u64, sum: u32) -> bool
    requires { (nodes : ℕ) × (g : Game) × TreeIn nodes numbers.now g × (n < nodes) }
    ensures { (nodes : ℕ) (g : Game) → TreeIn nodes numbers.now g → n < nodes → root_weight ≡ g.root_weight → sum ≡ children_weight g n → result ≡ weight_test g n }
{
    let weight = loaded::number(numbers, Section::WEIGHT, n);
    if weight == 0 {
        return false;
    }
    if each_node::kind(numbers, n) == Kind::Chance && sum as usize != weight {
        return false;
    }
    if n == NodeRecord::ROOT {
        return weight as u64 == root_weight;
    }
    let parent = loaded::number(numbers, Section::PARENT, n);
    if each_node::kind(numbers, parent) == Kind::Decision {
        return weight == loaded::number(numbers, Section::WEIGHT, parent);
    }
    true
}

// Whether every node's weight is right.
fn all_weights_right(
    numbers: &[u16],
    nodes: usize,
    root_weight: u64,
    sums: &[u32; NodeRecord::NODES],
) -> Result<(), Refusal>
    requires { (g : Game) × TreeIn nodes numbers.now g }
    ensures { (g : Game) → TreeIn nodes numbers.now g → root_weight ≡ g.root_weight → Holds (children_weight g) g.nodes sums.now → result ≡ checked_of ChanceWeights (weights_obey_rules_of g) }
{
    for n in 0..nodes {
        if !weight_right(numbers, n, root_weight, sums[n]) {
            return Err(Refusal::ChanceWeights);
        }
    }
    Ok(())
}

// Check 10.
pub fn weights_obey_rules(numbers: &[u16], nodes: usize, root_weight: u64) -> Result<(), Refusal>
    requires { (g : Game) × TreeIn nodes numbers.now g }
    ensures { (g : Game) → TreeIn nodes numbers.now g → root_weight ≡ g.root_weight → result ≡ checked_of ChanceWeights (weights_obey_rules_of g) }
{
    let mut sums = [0u32; NodeRecord::NODES];
    add_weights(numbers, nodes, &mut sums);
    all_weights_right(numbers, nodes, root_weight, &sums)
}
