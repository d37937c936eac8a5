// Refusal 17 of the game writer: whether its lists are side by side, its numbers fit, and no node is given what its kind lacks.
ghost use Rattle.std.specs.Prelude.{◌≡◌, ◌&&◌, ◌<◌, length};
ghost use Rattle.algebra.specs.Arrays.{item, item_z};
ghost use Rattle.algebra.specs.Bounded.{all_to};
ghost use Rattle.model.specs.Writing.{is_zero, kind_fits_of, node_count, side_by_side, numbers_fit, game_fields_fit};
ghost use Rattle.fitting.specs.GameLists.{fields_of_lists, Beside};

use super::{all_fit, all_fit_signed, fits_width};
use records::{Header, Kind, NodeRecord, Payload, SetEntry};

// All fields of a game, one list a field: those of the sets side by side, and those of the nodes.
#[derive(Clone, Copy)]
pub struct GameLists<'a> {
    pub root_weight: u64,
    pub set_players: &'a [u64],
    pub set_moves: &'a [u64],
    pub kinds: &'a [u64],
    pub parents: &'a [u64],
    pub moves: &'a [u64],
    pub weights: &'a [u64],
    pub node_sets: &'a [u64],
    pub chance_moves: &'a [u64],
    pub payoffs1: &'a [i64],
    pub payoffs2: &'a [i64],
}

impl<'a> GameLists<'a> {
    // Whether all fields fit.
    pub fn fit(&self) -> bool
        ensures { result ≡ game_fields_fit (fields_of_lists self.now) }
    {
        self.side_by_side() && self.numbers_fit() && self.kinds_fit()
    }

    // Whether the lists of the sets are of one length, and those of the nodes.
    fn side_by_side(&self) -> bool
        ensures { result ≡ side_by_side (fields_of_lists self.now) }
    {
        let nodes = self.kinds.len();
        self.set_moves.len() == self.set_players.len()
            && self.parents.len() == nodes
            && self.moves.len() == nodes
            && self.weights.len() == nodes
            && self.node_sets.len() == nodes
            && self.chance_moves.len() == nodes
            && self.payoffs1.len() == nodes
            && self.payoffs2.len() == nodes
    }

    // Whether H, N and every number fit their fields.
    fn numbers_fit(&self) -> bool
        ensures { result ≡ numbers_fit (fields_of_lists self.now) }
    {
        fits_width(self.set_players.len() as u64, Header::COUNT_BITS)
            && fits_width(self.kinds.len() as u64, Header::COUNT_BITS)
            && fits_width(self.root_weight, Header::COUNT_BITS)
            && all_fit(self.set_players, SetEntry::PLAYER_BITS)
            && all_fit(self.set_moves, SetEntry::MOVES_BITS)
            && all_fit(self.parents, NodeRecord::PARENT_BITS)
            && all_fit(self.moves, NodeRecord::PLACE_BITS)
            && all_fit(self.weights, NodeRecord::WEIGHT_BITS)
            && all_fit(self.node_sets, Payload::SET_BITS)
            && all_fit(self.chance_moves, Payload::MOVES_BITS)
            && all_fit_signed(self.payoffs1)
            && all_fit_signed(self.payoffs2)
    }

    // Whether both payoffs of node `n` are 0.
    fn no_payoffs(&self, n: usize) -> bool
        requires { (n < length self.now.payoffs1.now) × (n < length self.now.payoffs2.now) }
        ensures { result ≡ (is_zero (item_z self.now.payoffs1.now n) && is_zero (item_z self.now.payoffs2.now n)) }
    {
        self.payoffs1[n] == 0 && self.payoffs2[n] == 0
    }

    // Whether the kind of node `n` is 0 to 2, and no number is given that the kind lacks.
    fn kind_fits(&self, n: usize) -> bool
        requires { (n < length self.now.kinds.now) × Beside (fields_of_lists self.now) }
        ensures { result ≡ kind_fits_of (fields_of_lists self.now) (item self.now.kinds.now n) n }
    {
        let no_set = self.node_sets[n] == 0;
        let no_moves = self.chance_moves[n] == 0;
        match Kind::from(self.kinds[n]) {
            Kind::Leaf => no_set && no_moves,
            Kind::Decision => no_moves && self.no_payoffs(n),
            Kind::Chance => no_set && self.no_payoffs(n),
            Kind::Unknown => false,
        }
    }

    // Whether no node of lists side by side is given what its kind lacks.
    fn kinds_fit(&self) -> bool
        requires { Beside (fields_of_lists self.now) }
        ensures { result ≡ all_to (node_count (fields_of_lists self.now)) (λ n. kind_fits_of (fields_of_lists self.now) (item self.now.kinds.now n) n) }
    {
        (0..self.kinds.len()).all(|n| self.kind_fits(n))
    }
}
