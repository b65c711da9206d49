// The library for other languages: a whole task in one call over bytes, and a session's calls. `porvuund_c` exports its
// functions `porvuund_..` for Rust or C to link.

#![tactic(auto)]

mod calls;
mod sessions;

pub use calls::{porvuund_book, porvuund_check, porvuund_newcomer};
pub use sessions::{
    SearchNumbers, SearchedNumbers, porvuund_fresh, porvuund_load, porvuund_reduce,
    porvuund_search, porvuund_write,
};
