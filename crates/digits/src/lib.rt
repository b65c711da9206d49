// Counts, budgets and numbers of searches read from decimal digits, with a cap.

#![tactic(auto)]

mod budget;
mod digits;

pub use budget::{budget_of, read_budget, rounds_of};
pub use digits::{count_of, digits_of};
