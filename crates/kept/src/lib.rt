// Arrays that a session keeps: a copy of the sheet's bytes, and the classes of a placement, from the first cover's
// array to the position's and back.

#![tactic(auto)]

mod classes;
mod sheet_text;

pub use classes::{best_of, first_classes};
pub use sheet_text::copied;
