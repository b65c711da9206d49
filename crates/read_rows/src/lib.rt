// Blocks 2 and 3 of a book, read into rows of words against the sheet that it is for.

#![tactic(auto)]

mod roles_block;
mod users_block;

pub use roles_block::{RolesRead, read_roles};
pub use users_block::read_users;
