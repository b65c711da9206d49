// The lines of a role book: a name and cells, two names, the names of roles, the permissions, the counts.
//
// A writer is lent a buffer, writes its bytes at the front and answers how many they are; past them the buffer keeps
// its own bytes (`Written` of text).

#![tactic(auto)]

mod counts;
mod first_line;
mod lines;
mod role_names;

pub use counts::{Counts, put_counts};
pub use first_line::permissions_line;
pub use lines::{put_named_line, put_pair_line};
pub use role_names::{ROLE_NAME_BYTES, put_role_fields, put_role_name};
