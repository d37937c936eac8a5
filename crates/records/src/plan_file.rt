// The header of a plan file, read and put, and how its weights stand. Where a field stands and how wide it is, and its edition are said here alone.
ghost use Rattle.std.specs.Prelude.{◌≡◌, ◌+◌, ◌*◌, ◌/◌, ◌^◌, ◌≤◌, ◌<◌, length};
ghost use Rattle.algebra.specs.Arrays.{placed};
ghost use Rattle.model.specs.Bits.{packed};
ghost use Rattle.records.specs.PlanRecords.{plan_header_of, plan_header_with, plan_header_bits};

use super::game_file::NodeRecord;
use bit_reader::Reader;

// D1 and D2.
#[derive(Clone, Copy)]
pub struct Denominators {
    pub d1: u64,
    pub d2: u64,
}

// The header of a plan file.
#[derive(Clone, Copy)]
pub struct PlanHeader {
    pub edition: u64,
    pub denominators: Denominators,
    pub zeros: u64,
}

impl PlanHeader {
    pub const EDITION: u64 = 1;

    pub const EDITION_BITS: usize = 4;

    pub const DENOMINATOR_BITS: usize = 12;

    // The largest D.
    pub const LARGEST: u64 = 4095;

    pub const ZERO_BITS: usize = 4;

    pub const BITS: usize = PlanHeader::EDITION_BITS
        + 2 * PlanHeader::DENOMINATOR_BITS
        + PlanHeader::ZERO_BITS;

    pub const BYTES: usize = PlanHeader::BITS / 8;

    // Of each weight after the header.
    pub const WEIGHT_BITS: usize = 12;

    // The bytes of the longest file: every node but the root is a player's move.
    // Not by `file_bytes`: a constant is an expression of operators on constants, with no call.
    pub const LONGEST_FILE: usize = PlanHeader::BYTES
        + (PlanHeader::WEIGHT_BITS * (NodeRecord::NODES - 1) + 7) / 8;

    // The header of a file with these denominators.
    pub fn new(d1: u64, d2: u64) -> Self
        ensures { result ≡ plan_header_with d1 d2 }
    {
        PlanHeader {
            edition: PlanHeader::EDITION,
            denominators: Denominators { d1, d2 },
            zeros: 0,
        }
    }

    // How many bytes a file of so many weights has.
    pub fn file_bytes(weights: usize) -> usize
        requires { 12 * weights + 7 < 2 ^ 64 }
        ensures { result ≡ 4 + (12 * weights + 7) / 8 }
    {
        PlanHeader::BYTES + (PlanHeader::WEIGHT_BITS * weights).div_ceil(8)
    }

    // The bit at which weight `i` begins, in file order.
    pub fn weight_at(i: usize) -> usize
        requires { 32 + 12 * i < 2 ^ 64 }
        ensures { result ≡ 32 + 12 * i }
    {
        PlanHeader::BITS + PlanHeader::WEIGHT_BITS * i
    }

    // The header of a file.
    pub fn read(plan: &[u8]) -> Self
        ensures { result ≡ plan_header_of plan.now }
    {
        let mut reader = Reader::new(plan, 0);
        let edition = reader.next(PlanHeader::EDITION_BITS);
        let d1 = reader.next(PlanHeader::DENOMINATOR_BITS);
        let d2 = reader.next(PlanHeader::DENOMINATOR_BITS);
        let zeros = reader.next(PlanHeader::ZERO_BITS);
        PlanHeader {
            edition,
            denominators: Denominators { d1, d2 },
            zeros,
        }
    }

    // Puts the header at the start of a file.
    pub fn put(self, out: &mut [u8])
        requires { 4 ≤ length out.old }
        ensures { out.new ≡ placed 0 (packed 4 (plan_header_bits self)) out.old }
    {
        bit_writer::put_fields(
            out,
            0,
            &[
                (PlanHeader::EDITION_BITS, self.edition),
                (PlanHeader::DENOMINATOR_BITS, self.denominators.d1),
                (PlanHeader::DENOMINATOR_BITS, self.denominators.d2),
                (PlanHeader::ZERO_BITS, self.zeros),
            ],
        );
    }
}
