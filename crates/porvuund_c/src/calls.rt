// A whole task in one call over bytes, as other languages link it.
ghost use Rattle.spec.specs.Calls.{Checks};
ghost use Rattle.spec.specs.Newcomer.{Admits};
ghost use Rattle.judging.specs.BookSays.{answer_of};
ghost use Rattle.answers.specs.Said.{write_said};
ghost use Rattle.porvuund.specs.OneShot.{Books};

use answers::WriteAnswer;
use judging::Checked;

// The book of a sheet, after one search within the budget, at the front of the buffer: answered as a writing is. A
// refusal leaves every byte of the buffer.
#[unsafe(no_mangle)]
pub extern "C" fn porvuund_book(sheet: &[u8], budget: u32, out: &mut [u8]) -> WriteAnswer
    ensures { Books sheet.now budget out.old (write_said result) out.new }
{
    porvuund::porvuund_book(sheet, budget, out)
}

// Whether a book is right for a sheet.
#[unsafe(no_mangle)]
pub extern "C" fn porvuund_check<'a>(sheet: &'a [u8], book: &'a [u8]) -> Checked
    ensures { Checks sheet.now book.now (answer_of result) }
{
    porvuund::porvuund_check(sheet, book)
}

// The book of a sheet with a user line added, from a book of the sheet, at the front of the buffer: answered as a
// writing is. A refusal leaves every byte of the buffer.
#[unsafe(no_mangle)]
pub extern "C" fn porvuund_newcomer<'a>(
    sheet: &'a [u8],
    book: &'a [u8],
    line: &'a [u8],
    out: &mut [u8],
) -> WriteAnswer
    ensures { Admits (record {
      sheet = sheet.now;
      book = book.now;
      line = line.now;
    }) out.old (write_said result) out.new }
{
    porvuund::porvuund_newcomer(sheet, book, line, out)
}
