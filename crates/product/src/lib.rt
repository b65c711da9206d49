// The and/or product of a role set's two matrices as rows of words: a user's row role after role, as source document
// 001 has it, and whether the rows of all users are a sheet's.

#![tactic(auto, unfolding(cell_rows::specs::Rows::row_words))]

mod agreement;
mod role_steps;

pub use agreement::rows_agree;
pub use role_steps::row_after;
