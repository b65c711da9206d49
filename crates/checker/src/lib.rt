// The checker: whether a book is right for a sheet, its counts, and what was read of it.

#![tactic(auto)]

mod checking;
mod reading;

pub use checking::check;
pub use reading::read_book;
