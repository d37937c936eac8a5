// The records of a game file, read and put. Where a field stands and how wide it is, its edition and its limits are said here alone.
ghost use Rattle.std.specs.Prelude.{◌≡◌, ℕ, ◌++◌, ◌+◌, ◌*◌, ◌/◌, ◌≤◌, ◌<◌, ◌^◌, List, length};
ghost use Rattle.algebra.specs.Arrays.{placed};
ghost use Rattle.model.specs.Bits.{bits, field, packed};
ghost use Rattle.model.specs.Game.{game_of, node_at, node_moves};
ghost use Rattle.model.specs.GameChecks.{is_move_count_of};
ghost use Rattle.bits.specs.Puts.{bits_put};
ghost use Rattle.records.specs.Records.{header_of, header_with, header_bits, SetRead, entry_bits, kind_number, kind_of, kind_in, number_in, set_in, moves_in, payoff1_in, payoff2_in, payload_by, payload_bits, NodeRead, node_bits};

use bit_reader::Pair;

// The header of a game file: the counts, D0, and the bit at which the node records begin.
#[derive(Clone, Copy)]
pub struct Header {
    pub edition: u64,
    pub nodes: usize,
    pub sets: usize,
    pub root_weight: u64,
    pub records: usize,
}

impl Header {
    pub const EDITION: u64 = 1;

    pub const EDITION_BITS: usize = 4;

    // Of N, of H and of D0.
    pub const COUNT_BITS: usize = 12;

    pub const BITS: usize = Header::EDITION_BITS + 3 * Header::COUNT_BITS;

    pub const BYTES: usize = Header::BITS / 8;

    // The bits after H, after N and after the edition.
    const BELOW_SETS: usize = Header::COUNT_BITS;

    const BELOW_NODES: usize = Header::BELOW_SETS + Header::COUNT_BITS;

    const BELOW_EDITION: usize = Header::BELOW_NODES + Header::COUNT_BITS;

    // The bytes of the longest file that a header can count.
    pub const LONGEST_FILE: usize = Header::BYTES
        + SetEntry::BYTES * SetEntry::SETS
        + NodeRecord::BYTES * NodeRecord::NODES;

    // The header of a file with so many nodes and sets, and this D0.
    pub fn new(nodes: usize, sets: usize, root_weight: u64) -> Self
        requires { sets < 2 ^ 12 }
        ensures { result ≡ header_with nodes sets root_weight }
    {
        Header {
            edition: Header::EDITION,
            nodes,
            sets,
            root_weight,
            records: Header::BITS + SetEntry::BITS * sets,
        }
    }

    // How many bytes its file has.
    pub fn file_bytes(self) -> usize
        requires { (self.nodes < 2 ^ 12) × (self.sets < 2 ^ 12) }
        ensures { result ≡ 5 + self.sets + 8 * self.nodes }
    {
        Header::BYTES + SetEntry::BYTES * self.sets + NodeRecord::BYTES * self.nodes
    }

    // The header of a file.
    pub fn read(bytes: &[u8]) -> Self
        ensures { result ≡ header_of bytes.now }
    {
        let word = bits::read_field(bytes, 0, Header::BITS);
        let edition = bits::cut(word, Header::BELOW_EDITION, Header::EDITION_BITS);
        let nodes = bits::cut(word, Header::BELOW_NODES, Header::COUNT_BITS) as usize;
        let sets = bits::cut(word, Header::BELOW_SETS, Header::COUNT_BITS) as usize;
        let root_weight = bits::cut(word, 0, Header::COUNT_BITS);
        Header {
            edition,
            ..Header::new(nodes, sets, root_weight)
        }
    }

    // Puts the header at the start of a file.
    pub fn put(self, out: &mut [u8])
        requires { 5 ≤ length out.old }
        ensures { out.new ≡ placed 0 (packed 5 (header_bits self)) out.old }
    {
        bit_writer::put_fields(
            out,
            0,
            &[
                (Header::EDITION_BITS, self.edition),
                (Header::COUNT_BITS, self.nodes as u64),
                (Header::COUNT_BITS, self.sets as u64),
                (Header::COUNT_BITS, self.root_weight),
            ],
        );
    }
}

// The entry of an information set.
// The player is 0 or 1, as the C interface gives it and a loaded game holds it: callers only hand it on, so an enum would be no plainer.
#[derive(Clone, Copy)]
pub struct SetEntry {
    pub player: u64,
    pub moves: usize,
}

impl SetEntry {
    pub const PLAYER_BITS: usize = 1;

    pub const MOVES_BITS: usize = 7;

    pub const BITS: usize = SetEntry::PLAYER_BITS + SetEntry::MOVES_BITS;

    pub const BYTES: usize = SetEntry::BITS / 8;

    // The most sets that a header can count.
    pub const SETS: usize = NodeRecord::NODES;

    // The most moves of a set or of a chance node.
    pub const MOVES: usize = 64;

    // The entry of set `h`.
    pub fn read(bytes: &[u8], h: usize) -> Self
        requires { h < 2 ^ 12 }
        ensures { SetRead bytes.now h result }
    {
        let at = Header::BITS + SetEntry::BITS * h;
        let word = bits::read_field(bytes, at, SetEntry::BITS);
        let player = bits::cut(word, SetEntry::MOVES_BITS, SetEntry::PLAYER_BITS);
        let moves = bits::cut(word, 0, SetEntry::MOVES_BITS) as usize;
        SetEntry { player, moves }
    }

    // Puts it as the entry of set `h`.
    pub fn put(self, out: &mut [u8], h: usize)
        requires { (h < 2 ^ 12) × (5 + h < length out.old) }
        ensures { out.new ≡ placed (5 + h) (packed 1 (entry_bits self)) out.old }
    {
        bit_writer::put_fields(
            out,
            Header::BITS + SetEntry::BITS * h,
            &[
                (SetEntry::PLAYER_BITS, self.player),
                (SetEntry::MOVES_BITS, self.moves as u64),
            ],
        );
    }
}

// What a node is.
#[derive(Clone, Copy, PartialEq, Eq)]
pub enum Kind {
    Leaf,
    Decision,
    Chance,
    // The kind that no node has: a record with it is read too and refused later, by its check, so an Option around a kind would be no plainer.
    Unknown,
}

impl Kind {
    // The number that stands for it.
    #[tactic(auto, unfolding(crate::specs::Records::kind_number))]
    pub fn number(self) -> u64
        ensures { result ≡ kind_number self }
    {
        self as u64
    }
}

impl From<u64> for Kind {
    ghost from_gives = { λ number kind. kind ≡ kind_of number };

    #[tactic(auto, unfolding(crate::specs::Records::kind_of))]
    fn from(number: u64) -> Kind {
        match number {
            0 => Kind::Leaf,
            1 => Kind::Decision,
            2 => Kind::Chance,
            _ => Kind::Unknown,
        }
    }
}

// What a node has by its kind. The padding after a set or a move count is read, since a check asks that it is zero.
// A record with a kind that no node has is read with that kind and zeros; one that is put may have any kind's number, and a move count.
#[derive(Clone, Copy, PartialEq, Eq)]
pub enum Payload {
    Leaf {
        payoff1: i16,
        payoff2: i16,
    },
    Decision {
        set: usize,
        padding: u64,
    },
    Chance {
        moves: usize,
        padding: u64,
    },
    Unknown {
        kind: u64,
        moves: usize,
        padding: u64,
    },
}

// A move count and what follows it, from bit `at` on.
fn put_moves(out: &mut [u8], at: usize, moves: usize, padding: u64)
    requires { (at < 1000000) × (at + 32 ≤ 8 * length out.old) }
    ensures { out.new ≡ bits_put out.old at (bits 7 moves ++ bits 25 padding) }
{
    bit_writer::put_fields(
        out,
        at,
        &[
            (Payload::MOVES_BITS, moves as u64),
            (Payload::MOVES_PADDING, padding),
        ],
    );
}

impl Payload {
    pub const BITS: usize = 32;

    // Of a leaf's payoffs, in two's complement, and the least and the greatest that fit.
    pub const PAYOFF_BITS: usize = 16;

    pub const LEAST: i64 = -32768;

    pub const GREATEST: i64 = 32767;

    // Of a decision's set, and of the padding after it.
    pub const SET_BITS: usize = 12;

    pub const SET_PADDING: usize = Payload::BITS - Payload::SET_BITS;

    // Of a chance node's move count, and of the padding after it.
    pub const MOVES_BITS: usize = 7;

    pub const MOVES_PADDING: usize = Payload::BITS - Payload::MOVES_BITS;

    #[tactic(auto, unfolding(crate::specs::Records::kind_in))]
    pub fn kind(self) -> Kind
        ensures { result ≡ kind_in self }
    {
        match self {
            Payload::Leaf { .. } => Kind::Leaf,
            Payload::Decision { .. } => Kind::Decision,
            Payload::Chance { .. } => Kind::Chance,
            Payload::Unknown { .. } => Kind::Unknown,
        }
    }

    // The number that stands for its kind.
    #[tactic(auto, unfolding(crate::specs::Records::number_in, crate::specs::Records::kind_in, crate::specs::Records::kind_number))]
    fn number(self) -> u64
        ensures { result ≡ number_in self }
    {
        match self {
            Payload::Unknown { kind, .. } => kind,
            _ => self.kind().number(),
        }
    }

    // A decision's set, and 0 of any other kind; the other fields likewise.
    #[tactic(auto, unfolding(crate::specs::Records::set_in))]
    pub fn set(self) -> usize
        ensures { result ≡ set_in self }
    {
        match self {
            Payload::Decision { set, .. } => set,
            _ => 0,
        }
    }

    #[tactic(auto, unfolding(crate::specs::Records::moves_in))]
    pub fn moves(self) -> usize
        ensures { result ≡ moves_in self }
    {
        match self {
            Payload::Chance { moves, .. } => moves,
            _ => 0,
        }
    }

    #[tactic(auto, unfolding(crate::specs::Records::payoff1_in, crate::specs::Records::payoff2_in))]
    pub fn payoffs(self) -> (i16, i16)
        ensures { result ≡ (payoff1_in self, payoff2_in self) }
    {
        match self {
            Payload::Leaf { payoff1, payoff2 } => (payoff1, payoff2),
            _ => (0, 0),
        }
    }

    // The payload in a word of its bits, by the node's kind.
    fn read(word: u64, kind: Kind) -> Self
        ensures { (bytes : List ℕ) (at : ℕ) → word ≡ field bytes at 32 → result ≡ payload_by bytes at kind }
    {
        match kind {
            Kind::Leaf => {
                let first = bits::cut(word, Payload::PAYOFF_BITS, Payload::PAYOFF_BITS);
                let second = bits::cut(word, 0, Payload::PAYOFF_BITS);
                Payload::Leaf {
                    payoff1: bits::signed16(first),
                    payoff2: bits::signed16(second),
                }
            }
            Kind::Decision => {
                let set = bits::cut(word, Payload::SET_PADDING, Payload::SET_BITS) as usize;
                let padding = bits::cut(word, 0, Payload::SET_PADDING);
                Payload::Decision { set, padding }
            }
            Kind::Chance => {
                let moves = bits::cut(word, Payload::MOVES_PADDING, Payload::MOVES_BITS) as usize;
                let padding = bits::cut(word, 0, Payload::MOVES_PADDING);
                Payload::Chance { moves, padding }
            }
            Kind::Unknown => Payload::Unknown {
                kind: kind.number(),
                moves: 0,
                padding: 0,
            },
        }
    }

    // Puts the payload from bit `at` on.
    fn put(self, out: &mut [u8], at: usize)
        requires { (at < 1000000) × (at + 32 ≤ 8 * length out.old) }
        ensures { out.new ≡ bits_put out.old at (payload_bits self) }
    {
        match self {
            Payload::Leaf { payoff1, payoff2 } => {
                let first = bits::unsigned16(payoff1);
                let second = bits::unsigned16(payoff2);
                bit_writer::put_fields(
                    out,
                    at,
                    &[
                        (Payload::PAYOFF_BITS, first),
                        (Payload::PAYOFF_BITS, second),
                    ],
                );
            }
            Payload::Decision { set, padding } => bit_writer::put_fields(
                out,
                at,
                &[
                    (Payload::SET_BITS, set as u64),
                    (Payload::SET_PADDING, padding),
                ],
            ),
            Payload::Chance { moves, padding } => put_moves(out, at, moves, padding),
            Payload::Unknown { moves, padding, .. } => put_moves(out, at, moves, padding),
        }
    }
}

// The record of a node; `place` is its move at the parent.
#[derive(Clone, Copy)]
pub struct NodeRecord {
    pub parent: usize,
    pub place: usize,
    pub weight: u64,
    pub payload: Payload,
}

impl NodeRecord {
    pub const KIND_BITS: usize = 2;

    pub const PARENT_BITS: usize = 12;

    pub const PLACE_BITS: usize = 6;

    pub const WEIGHT_BITS: usize = 12;

    // The bits of the first half after the place, after the parent and after the kind.
    const BELOW_PLACE: usize = NodeRecord::WEIGHT_BITS;

    const BELOW_PARENT: usize = NodeRecord::BELOW_PLACE + NodeRecord::PLACE_BITS;

    const BELOW_KIND: usize = NodeRecord::BELOW_PARENT + NodeRecord::PARENT_BITS;

    // The bits before the payload.
    pub const FRONT_BITS: usize = NodeRecord::KIND_BITS
        + NodeRecord::PARENT_BITS
        + NodeRecord::PLACE_BITS
        + NodeRecord::WEIGHT_BITS;

    pub const BITS: usize = NodeRecord::FRONT_BITS + Payload::BITS;

    pub const BYTES: usize = NodeRecord::BITS / 8;

    pub const ROOT: usize = 0;

    // The most nodes of a game, and the most moves of a path.
    pub const NODES: usize = 4095;

    pub const PATH: u64 = 255;

    // The record of node `n`, where the records begin at bit `records`.
    pub fn read(bytes: &[u8], records: usize, n: usize) -> Self
        requires { (records ≡ node_at bytes.now 0) × (n < 2 ^ 12) }
        ensures { NodeRead bytes.now n result }
    {
        let at = records + NodeRecord::BITS * n;
        let halves = Pair::read(bytes, at, NodeRecord::FRONT_BITS, Payload::BITS);
        let front = halves.first;
        let kind = Kind::from(bits::cut(front, NodeRecord::BELOW_KIND, NodeRecord::KIND_BITS));
        let parent = bits::cut(front, NodeRecord::BELOW_PARENT, NodeRecord::PARENT_BITS) as usize;
        let place = bits::cut(front, NodeRecord::BELOW_PLACE, NodeRecord::PLACE_BITS) as usize;
        let weight = bits::cut(front, 0, NodeRecord::WEIGHT_BITS);
        let payload = Payload::read(halves.second, kind);
        NodeRecord {
            parent,
            place,
            weight,
            payload,
        }
    }

    // Puts it as the record of node `n`, where the records begin at bit `records`, the first of a byte.
    pub fn put(self, out: &mut [u8], records: usize, n: usize)
        requires { (records ≡ 8 * (records / 8)) × (records < 33000) × (n < 2 ^ 12) × (records / 8 + 8 * n + 8 ≤ length out.old) }
        ensures { out.new ≡ placed (records / 8 + 8 * n) (packed 8 (node_bits self)) out.old }
    {
        let at = records + NodeRecord::BITS * n;
        bit_writer::put_fields(
            out,
            at,
            &[
                (NodeRecord::KIND_BITS, self.payload.number()),
                (NodeRecord::PARENT_BITS, self.parent as u64),
                (NodeRecord::PLACE_BITS, self.place as u64),
                (NodeRecord::WEIGHT_BITS, self.weight),
            ],
        );
        self.payload.put(out, at + NodeRecord::FRONT_BITS);
    }
}

// Whether a set or a chance node can have so many moves: 1 to 64.
pub fn is_move_count(moves: usize) -> bool
    ensures { result ≡ is_move_count_of moves }
{
    (1..=SetEntry::MOVES).contains(&moves)
}

// How many moves node `n` has: its set's, its own, or none.
pub fn move_count(bytes: &[u8], records: usize, n: usize) -> usize
    requires { (records ≡ node_at bytes.now 0) × (n < 2 ^ 12) }
    ensures { result ≡ node_moves (game_of bytes.now) n }
{
    match NodeRecord::read(bytes, records, n).payload {
        Payload::Decision { set, .. } => SetEntry::read(bytes, set).moves,
        Payload::Chance { moves, .. } => moves,
        Payload::Leaf { .. } | Payload::Unknown { .. } => 0,
    }
}
