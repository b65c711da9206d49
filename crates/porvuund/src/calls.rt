// A whole task in one call over bytes, as other languages link it.
ghost use Rattle.spec.specs.Calls.{Checks};
ghost use Rattle.spec.specs.Newcomer.{Admits};
ghost use Rattle.judging.specs.BookSays.{answer_of};
ghost use Rattle.answers.specs.Said.{write_said};
ghost use Rattle.porvuund.specs.OneShot.{Books};

use crate::sessions::{porvuund_load, porvuund_reduce, porvuund_write};
use answers::WriteAnswer;
use judging::Checked;
use session::Session;

// The book of a sheet, after one search within the budget, at the front of the buffer: answered as a writing is. A
// refusal leaves every byte of the buffer.
pub fn porvuund_book(sheet: &[u8], budget: u32, out: &mut [u8]) -> WriteAnswer
    ensures { Books sheet.now budget out.old (write_said result) out.new }
{
    let fresh = Session::fresh();
    let loaded = porvuund_load(fresh, sheet);
    let number = loaded.answer.number;
    if number != 0 {
        return WriteAnswer { number, count: 0 };
    }
    let read = loaded.session;
    let reduced = porvuund_reduce(read);
    let session = reduced.session;
    let searched = session.search(budget);
    let found = searched.session;
    porvuund_write(found, out)
}

// Whether a book is right for a sheet.
pub fn porvuund_check<'a>(sheet: &'a [u8], book: &'a [u8]) -> Checked
    ensures { Checks sheet.now book.now (answer_of result) }
{
    checker::check(sheet, book)
}

// The book of a sheet with a user line added, from a book of the sheet, at the front of the buffer: answered as a
// writing is. A refusal leaves every byte of the buffer.
pub fn porvuund_newcomer<'a>(
    sheet: &'a [u8],
    book: &'a [u8],
    line: &'a [u8],
    out: &mut [u8],
) -> WriteAnswer
    ensures { Admits (record {
      sheet = sheet.now;
      book = book.now;
      line = line.now;
    }) out.old (write_said result) out.new }
{
    newcomer::newcomer(sheet, book, line, out)
}
