// The witness: the greedy choice from the kernel, and the singles.

#![tactic(auto)]

mod choice;
mod counts;
mod first;
mod row;
mod sets;
mod witness;

pub use witness::{Witness, single_cells, witness_of};
