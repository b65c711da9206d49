// Words of 64 bits as sets of positions: whether a position is in a word, a word with a position
// put in or taken out, how many and which lowest, and whether one word is within another.
//
// A contract says of each position whether the result has it, by `bit`, or equals a definition of
// `specs/Counting.antt` on the word's bits. A position is a usize below WORD_BITS, as an index is.

#![tactic(auto)]

mod in_order;
mod position;
mod whole;

pub use in_order::{WordPositions, positions};
pub use position::{has, with, without};
pub use whole::{apart, count, full, lowest, lowest_from, within, without_lowest};

// How many positions a word has.
pub const WORD_BITS: usize = 64;
