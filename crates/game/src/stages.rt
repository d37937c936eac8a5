// The stages of loading a game file: each makes some checks and fills some sections, over what the one before it has left.
ghost use Rattle.std.specs.Prelude.{◌≡◌, List, ℕ, ◌≤◌, length};
ghost use Rattle.algebra.specs.Sections.{Apart};
ghost use Rattle.model.specs.Game.{Game, game_of};
ghost use Rattle.model.specs.Rows.{refusal};
ghost use Rattle.records.specs.Records.{header_of};
ghost use Rattle.loaded.specs.Sections.{start_section, lead_section, numbers_room, payoffs_room};
ghost use Rattle.loaded.specs.Leaves.{leaves_of};
ghost use Rattle.loaded.specs.Loaded.{Decoded, NumbersLoaded};
ghost use Rattle.sequences.specs.Sets.{Numberable};
ghost use Rattle.checks.specs.Answers.{number_of};
ghost use Rattle.game.specs.Stages.{tree_part, RecordsLoaded, FileDecoded, FileRooted, SequencesNumbered, SequencesLoaded, Sequenced};

use checks::Refusal;
use loaded::{Counts, Player};
use records::Header;
use sequences::{SequenceCounts, recall, sets};
use tree::{children, each_node, paths};

// Checks 5 and 6, and every record: how many leaves there are, or the refusal.
pub fn load_records(
    bytes: &[u8],
    header: Header,
    numbers: &mut [u16],
    payoffs: &mut [i16],
) -> Result<usize, Refusal>
    requires { (header ≡ header_of bytes.now) × (numbers_room ≤ length numbers.old) × (payoffs_room ≤ length payoffs.old) }
    ensures { RecordsLoaded bytes.now result numbers.new payoffs.new }
{
    decoding::load_sets(bytes, header.sets, numbers)?;
    decoding::load_nodes(bytes, header, numbers, payoffs)
}

// Checks 7 to 11: each node by itself, and the tree.
pub fn check_tree(numbers: &[u16], header: Header) -> Result<(), Refusal>
    requires { (bytes : List ℕ) × FileDecoded bytes header numbers.now }
    ensures { (bytes : List ℕ) → FileDecoded bytes header numbers.now → number_of result ≡ refusal tree_part bytes }
{
    let nodes = header.nodes;
    each_node::payloads_in_range(numbers, nodes, header.sets)?;
    each_node::nodes_attached(numbers, nodes)?;
    children::moves_lead_on(numbers, nodes)?;
    children::weights_obey_rules(numbers, nodes, header.root_weight)?;
    paths::paths_in_limit(numbers, nodes)
}

// By number the first sequence of each set and both players' own sequences to each node; how many sequences there are.
fn number_sequences(numbers: &mut [u16], nodes: usize, sets: usize) -> SequenceCounts
    requires { (g : Game) × (nodes ≡ g.nodes) × (sets ≡ g.sets) × Numberable g × Decoded g numbers.old }
    ensures { ((g : Game) → nodes ≡ g.nodes → sets ≡ g.sets → Numberable g → Decoded g numbers.old → SequencesNumbered g result numbers.new) × Apart start_section lead_section numbers.old numbers.new }
{
    let counts = sets::first_sequences(numbers, sets);
    recall::own_numbers(numbers, nodes, Player::One);
    recall::own_numbers(numbers, nodes, Player::Two);
    counts
}

// Checks 12 and 13, with the sequences by number: the counts of the loaded game, or the refusal.
pub fn load_sequences(numbers: &mut [u16], header: Header, leaves: usize) -> Result<Counts, Refusal>
    requires { (bytes : List ℕ) × FileRooted bytes header numbers.old }
    ensures { (bytes : List ℕ) → FileRooted bytes header numbers.old → leaves ≡ length (leaves_of (game_of bytes)) → SequencesLoaded bytes result numbers.new }
{
    let nodes = header.nodes;
    let sets = header.sets;
    sets::first_nodes(numbers, nodes, sets);
    sets::sets_non_empty(numbers, nodes, sets)?;
    let sequences = number_sequences(numbers, nodes, sets);
    recall::perfect_recall(numbers, nodes)?;
    Ok(Counts {
        nodes,
        sets,
        leaves,
        sequences1: sequences.first,
        sequences2: sequences.second,
        root_weight: header.root_weight,
    })
}

// The sections that no check takes: leading sequences, the order of the sets, leaves and chains.
pub fn load_rest(numbers: &mut [u16], counts: Counts)
    requires { (g : Game) × Sequenced g counts numbers.old }
    ensures { (g : Game) → Sequenced g counts numbers.old → NumbersLoaded g counts numbers.new }
{
    let nodes = counts.nodes;
    let sets = counts.sets;
    sets::leads(numbers, sets);
    gather::order::order(numbers, nodes);
    gather::leaves::leaves(numbers, nodes);
    gather::chains::chains(numbers, sets, counts.sequences1, counts.sequences2);
}
