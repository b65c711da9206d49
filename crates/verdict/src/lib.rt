// What a sweep does with one grant: removed as single, tied to the lowest that it dominates, or left.

#![tactic(auto)]

mod domination;
mod inside;
mod judgement;

pub use inside::{has_grants, insides};
pub use judgement::{Verdict, judge};
