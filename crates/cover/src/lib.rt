// The first cover: the groupings of the kernel, and the best of them.

#![tactic(auto)]

mod cover;

pub use cover::{Placement, first_best};
