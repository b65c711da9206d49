// Lines of a book: the cells behind a name, read into a row of words.

#![tactic(auto)]

mod clear;
mod line;

pub use clear::clear_rows;
pub use line::read_line;
