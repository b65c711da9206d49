// Rows of cells as text: written to a lent buffer, four at a time.

#![tactic(auto)]

mod fours;
mod row;

pub use row::{cell_at, put_cells};
