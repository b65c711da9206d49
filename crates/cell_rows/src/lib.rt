// Cells as rows of words: none set, and one more; whether one row has every cell of another; and what it means that
// rows show a sheet.

#![tactic(auto)]

mod rows;

pub use rows::{cells_in_word, holds_row, mark, no_rows};
