// What is judged of a book that has the form: its counts, its product and its witness, and the lowest number that
// applies.

#![tactic(auto)]

mod agree;
mod judgement;
mod witness_lines;

pub use judgement::{BookRead, Checked, judge_book, refused};
