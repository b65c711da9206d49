// What the book program, the check program and the newcomer program print, for a sheet and its argument, a book or a
// book and a line, in a lent buffer with every byte said; and what the long search prints of a session.

#![tactic(auto)]

mod lines;
mod output;

pub use lines::put_number_line;
pub use output::{
    CHECK_BUFFER, PROGRAM_BUFFER, book_output, check_output, newcomer_output, session_output,
};
