// The line that the long search writes after each search, in a lent buffer with every byte said: steps so far, depth
// gained, roles, bound, state, steps a second.

#![tactic(auto)]

mod line;

pub use line::{PROGRESS_BUFFER, put_progress};
