// Checks 1 to 4 of a game file: its header and its length.
ghost use Rattle.std.specs.Prelude.{◌≡◌};
ghost use Rattle.model.specs.Game.{game_of};
ghost use Rattle.model.specs.GameChecks.{has_header_of, has_edition_of, counts_positive_of, has_length_of};
ghost use Rattle.model.specs.Rows.{refusal};
ghost use Rattle.model.specs.Checks.{header_rows};
ghost use Rattle.checks.specs.declared.Refusal.TheVariants.{NoHeader, WrongEdition, ZeroCount, WrongLength};
ghost use Rattle.checks.specs.Answers.{checked_of, number_of};

use checks::{Refusal, check};
use records::Header;

// Check 1.
fn has_header(bytes: &[u8]) -> Result<(), Refusal>
    ensures { result ≡ checked_of NoHeader (has_header_of bytes.now) }
{
    check(Refusal::NoHeader, Header::BYTES <= bytes.len())
}

// Check 2.
fn has_edition(bytes: &[u8]) -> Result<(), Refusal>
    ensures { result ≡ checked_of WrongEdition (has_edition_of bytes.now) }
{
    let header = Header::read(bytes);
    check(Refusal::WrongEdition, header.edition == Header::EDITION)
}

// Check 3.
fn counts_positive(bytes: &[u8]) -> Result<(), Refusal>
    ensures { result ≡ checked_of ZeroCount (counts_positive_of (game_of bytes.now)) }
{
    let header = Header::read(bytes);
    check(
        Refusal::ZeroCount,
        0 < header.nodes && 0 < header.root_weight,
    )
}

// Check 4.
fn has_length(bytes: &[u8]) -> Result<(), Refusal>
    ensures { result ≡ checked_of WrongLength (has_length_of bytes.now) }
{
    let header = Header::read(bytes);
    check(Refusal::WrongLength, bytes.len() == header.file_bytes())
}

// Checks 1 to 4.
pub fn check_header(bytes: &[u8]) -> Result<(), Refusal>
    ensures { number_of result ≡ refusal header_rows bytes.now }
{
    has_header(bytes)?;
    has_edition(bytes)?;
    counts_positive(bytes)?;
    has_length(bytes)
}
