// The Adler-32 of some bytes, by which the line of an answer names them.

#![tactic(auto)]

mod adler;

pub use adler::adler_32;
