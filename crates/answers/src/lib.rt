// What the calls of a session answer, as values, and the counts where a search stands, which are in a search's answer
// and in the book.

#![tactic(auto)]

mod answer;
mod counts;

pub use answer::{LoadAnswer, ReduceAnswer, SearchAnswer, WriteAnswer};
pub use counts::counts_at;
