// The reduction: sweeps until one removes nothing, and the log of what was removed.

#![tactic(auto)]

mod reduction;

pub use reduction::{Reduced, reduce};
