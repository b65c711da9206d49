// The roles of a newcomer, over rows of words: each role whose permissions they all hold, and one new role for what is
// left over.

#![tactic(auto)]

mod got;
mod left;
mod newcomer;
mod put;

pub use newcomer::admit;
