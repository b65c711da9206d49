// The calls of a script. Each hands back the session after it, of a writing the one before it, which came from the
// calls if the one before did.
ghost use Rattle.session.specs.CodeSession.{Sound};

use crate::say::say;
use crate::space::{length_of, patterned};
use answer_lines::{Answer, admitted, written};
use numbers::{BOOK_LIMIT, SHEET_LIMIT};
use session::Session;
use std::rt::Files;

// One byte more than a sheet and a book have, by which longer ones are known. A line of as many bytes as the sheet's
// buffer is too long for every sheet.
const SHEET_BUFFER: usize = SHEET_LIMIT + 1;

const BOOK_BUFFER: usize = BOOK_LIMIT + 1;

pub fn load<R: Files + Eprint>(rt: &R, session: Session, path: &[u8]) -> Session
    requires { Sound session }
    ensures { Sound result }
{
    let mut text = [0u8; SHEET_BUFFER];
    let Some(count) = files::read_file(rt, path, &mut text) else {
        say(Answer::NoCall);
        return session;
    };
    let loaded = session.load(&text[..count]);
    let answer = loaded.answer;
    say(Answer::Loaded(answer));
    loaded.session
}

pub fn reduce(session: Session) -> Session
    requires { Sound session }
    ensures { Sound result }
{
    let reduced = session.reduce();
    let answer = reduced.answer;
    say(Answer::Reduced(answer));
    reduced.session
}

pub fn search(session: Session, word: &[u8]) -> Session
    requires { Sound session }
    ensures { Sound result }
{
    let Some(budget) = digits::read_budget(word) else {
        say(Answer::NoCall);
        return session;
    };
    let searched = session.search(budget);
    let answer = searched.answer;
    say(Answer::Searched(answer));
    searched.session
}

// Writes into the lent bytes.
fn write_into(session: Session, lent: &mut [u8])
    requires { Sound session }
{
    let answer = session.write(lent);
    say(written(answer, lent));
}

pub fn write(session: Session, word: &[u8]) -> Session
    requires { Sound session }
    ensures { Sound result }
{
    let Some(length) = length_of(word) else {
        say(Answer::NoCall);
        return session;
    };
    let mut space = patterned();
    write_into(session, &mut space[..length]);
    session
}

pub fn check<'a, R: Files + Eprint>(rt: &R, sheet_path: &'a [u8], book_path: &'a [u8]) {
    let mut sheet = [0u8; SHEET_BUFFER];
    let first = files::read_file(rt, sheet_path, &mut sheet);
    let mut book = [0u8; BOOK_BUFFER];
    let second = files::read_file(rt, book_path, &mut book);
    let (Some(sheet_length), Some(book_length)) = (first, second) else {
        say(Answer::NoCall);
        return;
    };
    say(Answer::Checked(checker::check(&sheet[..sheet_length], &book[..book_length])));
}

// Puts a newcomer in a book, with the new book in the lent bytes.
fn admit_into<'a>(sheet: &'a [u8], book: &'a [u8], line: &'a [u8], lent: &mut [u8]) {
    let answer = newcomer::newcomer(sheet, book, line, lent);
    say(admitted(answer, lent));
}

pub fn admit<'a, R: Files + Eprint>(
    rt: &R,
    sheet_path: &'a [u8],
    book_path: &'a [u8],
    line_path: &'a [u8],
    word: &'a [u8],
) {
    let Some(length) = length_of(word) else {
        say(Answer::NoCall);
        return;
    };
    let mut sheet = [0u8; SHEET_BUFFER];
    let first = files::read_file(rt, sheet_path, &mut sheet);
    let mut book = [0u8; BOOK_BUFFER];
    let second = files::read_file(rt, book_path, &mut book);
    let mut line = [0u8; SHEET_BUFFER];
    let third = files::read_file(rt, line_path, &mut line);
    let (Some(sheet_length), Some(book_length), Some(line_length)) = (first, second, third) else {
        say(Answer::NoCall);
        return;
    };
    let mut space = patterned();
    admit_into(
        &sheet[..sheet_length],
        &book[..book_length],
        &line[..line_length],
        &mut space[..length],
    );
}
