// What a reduction finds of a sheet and a session keeps: what was removed, the kernel, the witness, the first cover and
// the fit table.

#![tactic(auto)]

mod prepared;

pub use prepared::{Prepared, prepare};
