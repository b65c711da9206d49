// A book read against an accepted sheet: its four blocks one after the other, and the judgement of what they say.
ghost use Rattle.std.specs.Prelude.{IfOk};
ghost use Rattle.spec.specs.Sheet.{sheet_of};
ghost use Rattle.spec.specs.Calls.{Checks};
ghost use Rattle.cells.specs.RowsRead.{RowsRead};
ghost use Rattle.names.specs.LaidOut.{LaidOut};
ghost use Rattle.form.specs.RowSteps.{AllBlank};
ghost use Rattle.checker.specs.BlocksRead.{BlocksReads};
ghost use Rattle.checker.specs.ReadAs.{book_answer, ReadAs};

use judging::{BookRead, judge_book};
use names::Layout;
use numbers::{BOOK_LIMIT, CELL_WORDS, ROLE_WORDS, Refusal};
use read_fields::{read_counts, read_witness};
use read_rows::{read_roles, read_users};

// Reads the four blocks of a book, where it is of the form. Each starts where the one before it ended.
fn read_blocks<'a>(
    sheet: &'a [u8],
    layout: Layout,
    book: &'a [u8],
    has: &mut [u64; CELL_WORDS],
    gives: &mut [u64; ROLE_WORDS],
) -> Option<BookRead>
    requires { LaidOut sheet.now layout × AllBlank has.old × AllBlank gives.old }
    ensures { BlocksReads (sheet_of sheet.now) book.now has.new gives.new result }
{
    let first = read_counts(book)?;
    let second = read_roles(book, first.next, sheet, layout, gives)?;
    let fourth_at = read_users(book, second.next, sheet, layout, has, second.roles)?;
    let witness = read_witness(book, fourth_at, sheet, layout)?;
    Some(BookRead {
        counts: first.counts,
        roles: second.roles,
        witness,
    })
}

// Reads a book against an accepted sheet, which has been read: `rows` are the sheet's. Who has which role and what each
// role gives is read into rows that have none set; where the book is refused, what they then have is of no use.
pub fn read_book<'a>(
    sheet: &'a [u8],
    layout: Layout,
    rows: &'a [u64; CELL_WORDS],
    book: &'a [u8],
    has: &mut [u64; CELL_WORDS],
    gives: &mut [u64; ROLE_WORDS],
) -> Result<BookRead, Refusal>
    requires laid_out { LaidOut sheet.now layout × RowsRead rows.now (sheet_of sheet.now) }
    requires all_blank { AllBlank has.old × AllBlank gives.old }
    ensures checks { Checks sheet.now book.now (book_answer result) }
    ensures read_as { IfOk result (λ read. ReadAs (sheet_of sheet.now) book.now read has.new gives.new) }
{
    if BOOK_LIMIT < book.len() {
        return Err(Refusal::BookForm);
    }
    let read = read_blocks(sheet, layout, book, has, gives).ok_or(Refusal::BookForm)?;
    judge_book(sheet, rows, layout.users, read, has, gives)?;
    Ok(read)
}
