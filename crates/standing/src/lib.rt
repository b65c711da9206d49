// The state that a search names and a book says, and the bound beside it.

#![tactic(auto)]

mod standing;

pub use standing::{Standing, bound_of, standing_of};
