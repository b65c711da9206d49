// A newcomer in an existing book: the book of the sheet with one user line more, in which nobody's roles have moved.

#![tactic(auto)]

mod call;
mod evidence;
mod longer_text;
mod new_counts;
mod taken;

pub use call::newcomer;
