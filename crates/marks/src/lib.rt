// Sets of numbers below twice WORD_BITS in two words: whether a number is marked, a set with a number put in or taken
// out, and whether one set is within another. A contract says of each number whether it is marked, by `marked`.

#![tactic(auto)]

mod marks;

pub use marks::Marks;
