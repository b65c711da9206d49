// Blocks 2, 3 and 4 of a role book: a writer for each.
//
// A writer is lent a buffer, writes its bytes at the front and answers how many they are; past them the buffer keeps
// its own bytes (`Written` of text). A writer that follows another is lent the rest from where that one ended.

#![tactic(auto)]

mod role_block;
mod user_block;
mod witness_block;

pub use role_block::put_roles;
pub use user_block::put_users;
pub use witness_block::put_witness;
