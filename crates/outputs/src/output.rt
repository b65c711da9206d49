// What the book program, the check program and the newcomer program print, and the long search of its session.
ghost use Rattle.std.specs.Prelude.{[], ◌∷◌, replicate};
ghost use Rattle.spec.specs.Limits.{book_limit};
ghost use Rattle.spec.specs.Program.{printed, program_output};
ghost use Rattle.text.specs.Written.{Written};
ghost use Rattle.session.specs.CodeSession.{view, Sound};
ghost use Rattle.outputs.specs.CheckOutput.{check_output};
ghost use Rattle.outputs.specs.NewcomerOutput.{newcomer_output};

use crate::lines::{put_number_line, put_pair_line};
use digits::budget_of;
use numbers::BOOK_LIMIT;
use porvuund::{porvuund_book, porvuund_check, porvuund_newcomer};
use session::Session;

// The bytes of the book program's buffer. A session's book can be longer, and then the program prints 11.
pub const PROGRAM_BUFFER: usize = 65_536;

// Puts what the book program prints for a sheet and its argument at the front of the buffer: the book, or the number
// of the refusal and a line feed. Without an argument the word is empty.
pub fn book_output<'a>(sheet: &'a [u8], word: &'a [u8], out: &mut [u8; PROGRAM_BUFFER]) -> usize
    ensures { Written (program_output sheet.now (word.now ∷ []))
        out.old out.new result }
{
    let budget = budget_of(word);
    let answer = porvuund_book(sheet, budget, out);
    if answer.number == 0 {
        return answer.count;
    }
    put_number_line(out, answer.number)
}

// Puts what the long search prints of its session at the front of a buffer that takes every book: the book, or the
// number of the refusal and a line feed.
pub fn session_output(session: Session, out: &mut [u8; BOOK_LIMIT]) -> usize
    requires { Sound session }
    ensures { Written (printed (view session) (replicate book_limit 0)) out.old out.new
        result }
{
    let written = session.write(out);
    if written.number == 0 {
        return written.count;
    }
    put_number_line(out, written.number)
}

// The bytes of a line of two numbers, at most.
pub const CHECK_BUFFER: usize = 64;

// Puts what the check program prints for a sheet and a book at the front of the buffer: roles and witness lines with
// a comma between, or the number of the refusal, and a line feed.
pub fn check_output<'a>(sheet: &'a [u8], book: &'a [u8], out: &mut [u8; CHECK_BUFFER]) -> usize
    ensures { Written (check_output sheet.now book.now) out.old
        out.new result }
{
    let answer = porvuund_check(sheet, book);
    if answer.number == 0 {
        return put_pair_line(out, answer.roles, answer.witness_lines);
    }
    put_number_line(out, answer.number)
}

// Puts what the newcomer program prints for a sheet, a book and a user line at the front of a buffer that takes every
// book: the new book, or the number of the refusal and a line feed.
pub fn newcomer_output<'a>(
    sheet: &'a [u8],
    book: &'a [u8],
    line: &'a [u8],
    out: &mut [u8; BOOK_LIMIT],
) -> usize
    ensures { Written (newcomer_output (record {
      sheet = sheet.entry.now;
      book = book.now;
      line = line.now;
    })) out.old out.new result }
{
    let admitted = porvuund_newcomer(sheet, book, line, out);
    if admitted.number == 0 {
        return admitted.count;
    }
    put_number_line(out, admitted.number)
}
