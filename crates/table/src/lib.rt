// Which grants of a kernel fit, as a table for the search.

#![tactic(auto)]

mod table;

pub use numbers::TABLE_WORDS;
pub use table::fit_table;
