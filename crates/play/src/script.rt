// A line of a script, taken apart and answered.
ghost use Rattle.io.specs.Counts.{IsPrefixLen};
ghost use Rattle.session.specs.CodeSession.{Sound};

use crate::calls;
use crate::say::say;
use answer_lines::Answer;
use session::Session;
use std::rt::Files;

// Where the first blank of a line stands, or where the line ends.
fn first_blank(line: &[u8]) -> usize
    ensures { IsPrefixLen result line.now }
{
    for (i, &b) in line.iter().enumerate() {
        if b == b' ' {
            return i;
        }
    }
    line.len()
}

// A call that has something behind its first word.
#[derive(Clone, Copy)]
enum Asked {
    Load,
    Search,
    Write,
    Check,
    Newcomer,
}

// The call that the first word of a line names.
fn asked_by(word: &[u8]) -> Option<Asked> {
    match word {
        b"load" => Some(Asked::Load),
        b"search" => Some(Asked::Search),
        b"write" => Some(Asked::Write),
        b"check" => Some(Asked::Check),
        b"newcomer" => Some(Asked::Newcomer),
        _ => None,
    }
}

// Checks the two files that are named.
fn check_files<R: Files + Eprint>(rt: &R, names: &[u8]) {
    let end = first_blank(names);
    if end == names.len() {
        say(Answer::NoCall);
        return;
    }
    let from = end + 1;
    calls::check(rt, &names[..end], &names[from..]);
}

// Puts a newcomer in the book of a sheet: a book, a line and a length are named.
fn admit_to<'a, R: Files + Eprint>(rt: &R, sheet: &'a [u8], words: &'a [u8]) {
    let book = first_blank(words);
    if book == words.len() {
        say(Answer::NoCall);
        return;
    }
    let second = book + 1;
    let line = second + first_blank(&words[second..]);
    if line == words.len() {
        say(Answer::NoCall);
        return;
    }
    let last = line + 1;
    calls::admit(
        rt,
        sheet,
        &words[..book],
        &words[second..line],
        &words[last..],
    );
}

// Puts a newcomer in a book: a sheet is named before all that.
fn admit_files<R: Files + Eprint>(rt: &R, words: &[u8]) {
    let end = first_blank(words);
    if end == words.len() {
        say(Answer::NoCall);
        return;
    }
    let from = end + 1;
    admit_to(rt, &words[..end], &words[from..]);
}

// Makes the call that a line asks for, and answers it. A reduction is asked for by its word alone.
pub fn answer<R: Files + Eprint>(rt: &R, session: Session, line: &[u8]) -> Session
    requires { Sound session }
    ensures { Sound result }
{
    if check::same(line, b"reduce") {
        return calls::reduce(session);
    }
    let end = first_blank(line);
    if end == line.len() {
        say(Answer::NoCall);
        return session;
    }
    let from = end + 1;
    match asked_by(&line[..end]) {
        Some(Asked::Load) => calls::load(rt, session, &line[from..]),
        Some(Asked::Search) => calls::search(session, &line[from..]),
        Some(Asked::Write) => calls::write(session, &line[from..]),
        Some(Asked::Check) => {
            check_files(rt, &line[from..]);
            session
        }
        Some(Asked::Newcomer) => {
            admit_files(rt, &line[from..]);
            session
        }
        None => {
            say(Answer::NoCall);
            session
        }
    }
}
