// Cells read from a line of text: into a word, eight at a time, and into a row of words.

#![tactic(auto)]

mod four_cells;
mod line_cells;
mod row_cells;

pub use row_cells::read_cells;
