// A loaded game: one slice of 16-bit numbers in sections, one of payoffs in two, and a few counts. What they hold is `Loaded`.
#![tactic(auto)]

ghost use Rattle.std.specs.Prelude.{◌≡◌, ◌+◌, ◌≤◌, ◌<◌, length, set};
ghost use Rattle.algebra.specs.Arrays.{item, item_z};
ghost use Rattle.algebra.specs.Sections.{Held, Apart};
ghost use Rattle.model.specs.Game.{player_of, player_number};
ghost use Rattle.loaded.specs.Sections.{player_section, own_section_of, head_section_of, lead_section};
ghost use Rattle.loaded.specs.Players.{as_player, owner_in};
ghost use Rattle.loaded.specs.SetSequences.{set_sequences_in};
ghost use Rattle.loaded.specs.Counts.{side_of};

// Player 1 or player 2.
#[derive(Clone, Copy, PartialEq, Eq)]
pub enum Player {
    One,
    Two,
}

// How much there is of each: nodes, sets, leaves and each player's sequences; and D0.
#[derive(Clone, Copy)]
pub struct Counts {
    pub nodes: usize,
    pub sets: usize,
    pub leaves: usize,
    pub sequences1: usize,
    pub sequences2: usize,
    pub root_weight: u64,
}

// A loaded game, as it is lent. Both are slices and not arrays: an array type would ask more of callers than the room that contracts ask for.
#[derive(Clone, Copy)]
pub struct LoadedGame<'a> {
    pub numbers: &'a [u16],
    pub payoffs: &'a [i16],
    pub counts: Counts,
}

// What one player's best response takes of a loaded game: who he is, where his own sequences and the other's stand by leaf, where his payoffs begin and the first sets that his sequences lead to, and how many sequences he has.
#[derive(Clone, Copy)]
pub struct Side {
    pub player: Player,
    pub own: usize,
    pub opponent: usize,
    pub payoffs: usize,
    pub heads: usize,
    pub sequences: usize,
}

// The sequences of a set: the number of the first that ends in a move of it, how many do, and the number of the one that leads to it.
#[derive(Clone, Copy)]
pub struct SetSequences {
    pub start: usize,
    pub moves: usize,
    pub lead: usize,
}

// The player with a bit: 0 is player 1, anything else player 2.
impl From<usize> for Player {
    ghost from_gives = { λ bit player. as_player player ≡ player_of bit };

    fn from(bit: usize) -> Player {
        match bit {
            0 => Player::One,
            _ => Player::Two,
        }
    }
}

impl Player {
    // The number that names him, 1 or 2.
    pub fn number(self) -> u64
        ensures { result ≡ player_number (as_player self) }
    {
        match self {
            Player::One => 1,
            Player::Two => 2,
        }
    }

    // Where the numbers of his own sequences by node begin.
    pub fn own_section(self) -> usize
        ensures { result ≡ own_section_of (as_player self) }
    {
        match self {
            Player::One => Section::OWN1,
            Player::Two => Section::OWN2,
        }
    }

    // Where the first sets that his sequences lead to begin.
    pub fn head_section(self) -> usize
        ensures { result ≡ head_section_of (as_player self) }
    {
        match self {
            Player::One => Section::HEAD1,
            Player::Two => Section::HEAD2,
        }
    }
}

impl Counts {
    // A player's side.
    pub fn side(self, player: Player) -> Side
        ensures { result ≡ side_of self (as_player player) }
    {
        match player {
            Player::One => Side {
                player: Player::One,
                own: Section::LEAF1,
                opponent: Section::LEAF2,
                payoffs: Section::PAYOFFS1,
                heads: Section::HEAD1,
                sequences: self.sequences1,
            },
            Player::Two => Side {
                player: Player::Two,
                own: Section::LEAF2,
                opponent: Section::LEAF1,
                payoffs: Section::PAYOFFS2,
                heads: Section::HEAD2,
                sequences: self.sequences2,
            },
        }
    }
}

// Where each section begins.
#[derive(Clone, Copy)]
pub struct Section {
    pub at: usize,
}

impl Section {
    // The places of a section.
    pub const ROOM: usize = 4096;

    // By set: its player, 0 or 1, and its move count.
    pub const PLAYER: usize = 0;

    pub const MOVES: usize = Section::ROOM;

    // By node: its kind, its parent, its move there, its chance weight; a decision's set or a chance node's move count, and 0 at a leaf.
    pub const KIND: usize = 2 * Section::ROOM;

    pub const PARENT: usize = 3 * Section::ROOM;

    pub const PLACE: usize = 4 * Section::ROOM;

    pub const WEIGHT: usize = 5 * Section::ROOM;

    pub const PAYLOAD: usize = 6 * Section::ROOM;

    // By set: its first node, and the number of its first sequence.
    pub const FIRST_NODE: usize = 7 * Section::ROOM;

    pub const START: usize = 8 * Section::ROOM;

    // By node: the number of player 1's own sequence to it, and of player 2's.
    pub const OWN1: usize = 9 * Section::ROOM;

    pub const OWN2: usize = 10 * Section::ROOM;

    // By set: the number of the sequence that leads to it.
    pub const LEAD: usize = 11 * Section::ROOM;

    // The sets in the order of their first nodes.
    pub const ORDER: usize = 12 * Section::ROOM;

    // By leaf: the number of player 1's own sequence to it, and of player 2's; its chance weight.
    pub const LEAF1: usize = 13 * Section::ROOM;

    pub const LEAF2: usize = 14 * Section::ROOM;

    pub const CHANCE: usize = 15 * Section::ROOM;

    // By sequence of player 1, and of player 2: the first set that it leads to.
    pub const HEAD1: usize = 16 * Section::ROOM;

    pub const HEAD2: usize = 17 * Section::ROOM;

    // By set: the next one that the same sequence leads to.
    pub const NEXT: usize = 18 * Section::ROOM;

    // How many numbers there are.
    pub const NUMBERS: usize = 19 * Section::ROOM;

    // By leaf: player 1's payoff, and player 2's; how many payoffs there are.
    pub const PAYOFFS1: usize = 0;

    pub const PAYOFFS2: usize = Section::ROOM;

    pub const PAYOFFS: usize = 2 * Section::ROOM;
}

// The number at place `i` of the section that begins at `section`.
pub fn number(numbers: &[u16], section: usize, i: usize) -> usize
    requires { section + i < length numbers.now }
    ensures { (result ≡ item numbers.now (section + i)) × (result < 65536) }
{
    usize::from(numbers[section + i])
}

// Puts a number there.
pub fn put(numbers: &mut [u16], section: usize, i: usize, value: usize)
    requires { (section + i < length numbers.old) × (value < 65536) }
    ensures { numbers.new ≡ set numbers.old (section + i) value }
{
    numbers[section + i] = value as u16;
}

// Puts `value` into the first `count` places of the section that begins at `section`.
pub fn fill(numbers: &mut [u16], section: usize, count: usize, value: usize)
    requires { (section + count ≤ length numbers.old) × (value < 65536) }
    ensures { Held section (λ _. value) count numbers.new × Apart section (section + count) numbers.old numbers.new }
{
    numbers[section..section + count].fill(value as u16);
}

// The payoff at place `i` of the section that begins at `section`.
// Not one generic function with `number`, which would be no plainer: a number is read as a usize and has a bound, a payoff stays an i16.
pub fn payoff(payoffs: &[i16], section: usize, i: usize) -> i16
    requires { section + i < length payoffs.now }
    ensures { result ≡ item_z payoffs.now (section + i) }
{
    payoffs[section + i]
}

// Puts a payoff there.
pub fn put_payoff(payoffs: &mut [i16], section: usize, i: usize, value: i16)
    requires { section + i < length payoffs.old }
    ensures { payoffs.new ≡ set payoffs.old (section + i) value }
{
    payoffs[section + i] = value;
}

// The sequences of set `h`.
pub fn set_sequences(numbers: &[u16], h: usize) -> SetSequences
    requires { lead_section + h < length numbers.now }
    ensures { result ≡ set_sequences_in numbers.now h }
{
    SetSequences {
        start: number(numbers, Section::START, h),
        moves: number(numbers, Section::MOVES, h),
        lead: number(numbers, Section::LEAD, h),
    }
}

// Whose set `h` is.
pub fn owner(numbers: &[u16], h: usize) -> Player
    requires { player_section + h < length numbers.now }
    ensures { as_player result ≡ owner_in numbers.now h }
{
    Player::from(number(numbers, Section::PLAYER, h))
}
