// A role book written into a lent buffer, and written only where there is room for it.

#![tactic(auto)]

mod book;
mod writing;

pub use book::write_book;
pub use writing::write_if_room;
