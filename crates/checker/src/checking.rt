// The check of a book against a sheet.
ghost use Rattle.spec.specs.Calls.{Checks};
ghost use Rattle.judging.specs.BookSays.{answer_of};
ghost use Rattle.checker.specs.ReadAs.{book_answer};

use crate::reading::read_book;
use judging::{BookRead, Checked, refused};
use numbers::{ROLE_WORDS, Refusal};

// Reads and judges the sheet, then the book.
fn read_both<'a>(sheet: &'a [u8], book: &'a [u8]) -> Result<BookRead, Refusal>
    ensures { Checks sheet.now book.now (book_answer result) }
{
    let read = sheet::read(sheet)?;
    let mut has = cell_rows::no_rows();
    let mut gives = [0; ROLE_WORDS];
    read_book(sheet, read.layout, &read.rows, book, &mut has, &mut gives)
}

// Whether a book is right for a sheet: the lowest of document 01's numbers that applies, with counts 0; or 0, with
// the roles and the witness lines. The sheet is judged first.
pub fn check<'a>(sheet: &'a [u8], book: &'a [u8]) -> Checked
    ensures { Checks sheet.now book.now (answer_of result) }
{
    match read_both(sheet, book) {
        Ok(read) => Checked {
            number: 0,
            roles: read.roles,
            witness_lines: read.witness.lines,
        },
        Err(refusal) => refused(refusal.number()),
    }
}
