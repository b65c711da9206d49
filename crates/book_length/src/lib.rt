// How long a role book is, before anything of it is written.

#![tactic(auto)]

mod length;

pub use length::book_length;
