// The desk program's text, put into a lent buffer.
#![tactic(auto)]

use records::SetEntry;

pub mod printing;
pub mod reports;
mod strategy;
mod whole;

// No report has more bytes, and no line of a refusal: two lines of values, two of best values, one of a gain, and one a set.
pub const MOST: usize = 2 * 47 + 2 * 46 + 63 + 17 * SetEntry::SETS;

// No line of a refusal has more bytes: "refusal ", 20 digits and a line feed.
pub const LINE: usize = 29;
