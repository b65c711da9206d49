// What a script's line is answered with, and the answer as a line in a lent buffer.
ghost use Rattle.std.specs.Prelude.{◌≡◌, ◌≤◌, length};
ghost use Rattle.answers.specs.Said.{search_said, write_said};
ghost use Rattle.text.specs.Written.{Written};
ghost use Rattle.answer_lines.specs.Answers.{search_line, digest_line, write_line, newcomer_line};
ghost use Rattle.answer_lines.specs.LineOf.{answer_most, line_of};

use crate::lines::{put_digest_line, put_line};
use adler::adler_32;
use answers::{LoadAnswer, ReduceAnswer, SearchAnswer, WriteAnswer};
use judging::Checked;

// The bytes of an answer, at most.
pub const ANSWER_BUFFER: usize = 192;

// The answer of a call, or that a line is no call. A writing's and a newcomer's have the Adler-32 of the bytes that
// were lent.
#[derive(Clone, Copy)]
pub enum Answer {
    NoCall,
    Loaded(LoadAnswer),
    Reduced(ReduceAnswer),
    Searched(SearchAnswer),
    Written(WriteAnswer, u32),
    Checked(Checked),
    Admitted(WriteAnswer, u32),
}

// The answer of a writing, with the bytes that it was lent as they are after it.
pub fn written(answer: WriteAnswer, lent: &[u8]) -> Answer
    ensures { line_of result ≡ write_line (write_said answer) lent.now }
{
    Answer::Written(answer, adler_32(lent))
}

// The answer of a newcomer, with the bytes that were lent as they are after it.
pub fn admitted(answer: WriteAnswer, lent: &[u8]) -> Answer
    ensures { line_of result ≡ newcomer_line (write_said answer) lent.now }
{
    Answer::Admitted(answer, adler_32(lent))
}

// The line of a call that writes into lent bytes: its number, its byte count and the digest of the bytes.
fn put_lent(out: &mut [u8], word: &[u8], answer: WriteAnswer, sum: u32) -> usize
    requires { (length word.now ≤ 8) × (answer_most ≤ length out.old) }
    ensures { Written (digest_line word.now (write_said answer) sum) out.old
        out.new result }
{
    let numbers = [answer.number, answer.count];
    put_digest_line(out, word, &numbers, sum)
}

// The line of a search: its state is the last word.
fn put_searched(out: &mut [u8], answer: SearchAnswer) -> usize
    requires { answer_most ≤ length out.old }
    ensures { Written (search_line (search_said answer)) out.old out.new result }
{
    let numbers = [
        answer.number,
        answer.steps as usize,
        answer.placed as usize,
        answer.taken_back as usize,
        answer.closed as usize,
        answer.roles,
        answer.bound,
    ];
    let word: &[u8] = match answer.state {
        None => b"-",
        Some(standing) => standing.word(),
    };
    put_line(out, b"search", &numbers, word)
}

// Writes the line of an answer.
pub fn put_answer(out: &mut [u8], answer: Answer) -> usize
    requires { answer_most ≤ length out.old }
    ensures { Written (line_of answer) out.old out.new result }
{
    match answer {
        Answer::NoCall => text::put_bytes(out, b"?\n"),
        Answer::Loaded(a) => {
            let numbers = [a.number, a.users, a.permissions, a.grants];
            put_line(out, b"load", &numbers, b"")
        }
        Answer::Reduced(a) => {
            let numbers = [a.number, a.kernel, a.witness];
            put_line(out, b"reduce", &numbers, b"")
        }
        Answer::Searched(a) => put_searched(out, a),
        Answer::Written(a, sum) => put_lent(out, b"write", a, sum),
        Answer::Checked(a) => {
            let numbers = [a.number, a.roles, a.witness_lines];
            put_line(out, b"check", &numbers, b"")
        }
        Answer::Admitted(a, sum) => put_lent(out, b"newcomer", a, sum),
    }
}
