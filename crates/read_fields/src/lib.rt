// Blocks 1 and 4 of a book, read field by field: the counts and the state, and the grants of the witness.

#![tactic(auto)]

mod counts_block;
mod witness_block;

pub use counts_block::{CountsRead, read_counts};
pub use witness_block::{Witness, WitnessLine, read_witness};
