// Which grants fit, over rows and columns of words.

#![tactic(auto)]

mod column;
mod fit;

pub use column::{COLUMN_WORDS, PLACE_WORDS, columns_of, partners_in_column, union_of_row};
pub use fit::fitting;
