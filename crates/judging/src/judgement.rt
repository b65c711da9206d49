// The checker's answer: whether what was read of a book is right, and its counts.
ghost use Rattle.std.specs.Prelude.{◌≡◌, ◌*◌, ◌≤◌, length};
ghost use Rattle.std.proofs.Math.Bool.{So};
ghost use Rattle.spec.specs.Sheet.{sheet_of, user_count};
ghost use Rattle.spec.specs.Refusal.{accepted};
ghost use Rattle.spec.specs.Calls.{check_refused};
ghost use Rattle.cell_rows.specs.Rows.{row_words};
ghost use Rattle.cells.specs.RowsRead.{RowsRead};
ghost use Rattle.judging.specs.BookSays.{BookSays, answer_of, answer_as, JudgedAs};

use crate::agree::counts_agree;
use crate::witness_lines::witness_stands;
use book_lines::Counts;
use numbers::Refusal;
use product::rows_agree;
use read_fields::Witness;

// The answer: document 01's number, 0 where none applies, with the roles and the witness lines; a number above 0
// comes with counts 0.
#[repr(C)]
#[derive(Clone, Copy)]
pub struct Checked {
    pub number: usize,
    pub roles: usize,
    pub witness_lines: usize,
}

// What is read of a book: what block 1 says, how many roles block 2 has, and the witness.
#[derive(Clone, Copy)]
pub struct BookRead {
    pub counts: Counts,
    pub roles: usize,
    pub witness: Witness,
}

// A number with counts 0.
pub fn refused(number: usize) -> Checked
    ensures { answer_of result ≡ check_refused number }
{
    Checked {
        number,
        roles: 0,
        witness_lines: 0,
    }
}

// Judges what was read of a book that is of the form: its counts, its product and its witness in turn. The rows are
// those of the sheet, and the users as many.
pub fn judge_book<'a>(
    sheet: &'a [u8],
    rows: &'a [u64],
    users: usize,
    book: BookRead,
    has: &'a [u64],
    gives: &'a [u64],
) -> Result<(), Refusal>
    requires so { So (accepted sheet.now) × RowsRead rows.now (sheet_of sheet.now)
        × (users ≡ user_count (sheet_of sheet.now)) }
    requires book_says { BookSays (sheet_of sheet.now) book.counts book.roles has.now gives.now book.witness }
    requires row_words_in_bounds { (users * row_words ≤ length rows.now) × (users * row_words ≤ length has.now)
        × (book.roles * row_words ≤ length gives.now) }
    ensures { JudgedAs (sheet_of sheet.now) book.counts book.roles has.now gives.now book.witness
        (answer_as book.roles book.witness.lines result) }
{
    let roles = book.roles;
    if !counts_agree(book.counts, roles, book.witness.lines) {
        return Err(Refusal::BookCounts);
    }
    if !rows_agree(rows, has, gives, roles, users) {
        return Err(Refusal::BookProduct);
    }
    if !witness_stands(rows, book.witness) {
        return Err(Refusal::BookWitness);
    }
    Ok(())
}
