// The lines that answer a script's calls, each built in a lent buffer with every byte said: a first word, numbers,
// and a last word or the digest of some bytes.

#![tactic(auto)]

mod answer;
mod lines;

pub use answer::{ANSWER_BUFFER, Answer, admitted, put_answer, written};
