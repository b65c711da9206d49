// Reading a grant sheet in one pass: its refusal, where its names stand, and its cells as rows of words.

#![tactic(auto)]

mod first_line;
mod kept;
mod reading;
mod spelled;
mod user_line;
mod user_lines;

pub use reading::{SheetRead, read};
