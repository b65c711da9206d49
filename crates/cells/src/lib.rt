// Cells by number, sets of cells, and the cells of a set in order.

#![tactic(auto, unfolding(spec::specs::Limits::user_limit, cell_rows::specs::Rows::row_words, cell_rows::specs::Rows::row_bits))]

mod listing;

pub use listing::{Kernel, holds, listed, next_cell, permission_of, user_of};
