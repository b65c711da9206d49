// The call.
ghost use Rattle.std.specs.Prelude.{◌≡◌};
ghost use Rattle.spec.specs.Sheet.{sheet_of};
ghost use Rattle.spec.specs.Refusal.{first_number};
ghost use Rattle.spec.specs.Newcomer.{Admission, longer_causes, Admits};
ghost use Rattle.cells.specs.RowsRead.{RowsRead};
ghost use Rattle.names.specs.LaidOut.{LaidOut};
ghost use Rattle.book_lines.specs.Writing.{writing_said};
ghost use Rattle.answers.specs.Said.{write_said};
ghost use Rattle.newcomer.specs.Ready.{Ready, SomeReady};

use crate::evidence::witness_cells;
use crate::longer_text::put_longer;
use crate::new_counts::counts_with;
use crate::taken::name_taken;
use added_line::judge_line;
use admitting::admit;
use answers::WriteAnswer;
use book::write_if_room;
use cell_rows::no_rows;
use checker::read_book;
use judging::BookRead;
use names::Layout;
use numbers::{CELL_WORDS, ROLE_WORDS, Refusal, SHEET_LIMIT, USER_LIMIT, UserNo};

// Puts the newcomer among the roles of a book that was read, and writes the new book of the longer sheet; or refuses it
// where there is no room for a new role, or none in the buffer. The newcomer is the longer sheet's last user.
fn write_new<'a>(
    text: &'a [u8],
    users: usize,
    read: BookRead,
    has: &mut [u64; CELL_WORDS],
    gives: &mut [u64; ROLE_WORDS],
    out: &mut [u8],
) -> Result<usize, Refusal>
    requires { SomeReady text.now users read has.old gives.old }
    ensures { (lent : Admission) → Ready lent text.now users read has.old
        gives.old
        → Admits lent out.old (writing_said result) out.new }
{
    let longer = sheet::read(text)?;
    let admitted = admit(&longer.rows, UserNo(users), has, gives, read.roles);
    let roles = admitted.ok_or(Refusal::RolesFull)?;
    let lines = read.witness.lines;
    let counts = counts_with(read.counts, roles, lines);
    let cells = witness_cells(read.witness);
    write_if_room(
        out,
        text,
        longer.layout,
        has,
        gives,
        &cells[..lines],
        counts,
    )
}

// Reads and judges the book of a sheet to which a line can be added, then the newcomer's name and the room for one user
// more, and writes the new book.
fn admit_line<'a>(
    sheet: &'a [u8],
    layout: Layout,
    rows: &'a [u64; CELL_WORDS],
    book: &'a [u8],
    line: &'a [u8],
    out: &mut [u8],
) -> Result<usize, Refusal>
    requires { LaidOut sheet.now layout × RowsRead rows.now (sheet_of sheet.now)
        × (first_number (longer_causes sheet.now line.now) ≡ 0) }
    ensures { Admits (record {
      sheet = sheet.entry.now;
      book = book.now;
      line = line.now;
    }) out.old (writing_said result) out.new }
{
    let mut has = no_rows();
    let mut gives = [0; ROLE_WORDS];
    let read = read_book(sheet, layout, rows, book, &mut has, &mut gives)?;
    if name_taken(sheet, layout, line) {
        return Err(Refusal::NameTaken);
    }
    if layout.users == USER_LIMIT {
        return Err(Refusal::UsersFull);
    }
    let mut text = [0; SHEET_LIMIT];
    let length = put_longer(&mut text, sheet, line);
    write_new(
        &text[..length],
        layout.users,
        read,
        &mut has,
        &mut gives,
        out,
    )
}

// Reads and judges the sheet and the line that is added to it, then the book, and writes the new book.
fn write_with_line<'a>(
    sheet: &'a [u8],
    book: &'a [u8],
    line: &'a [u8],
    out: &mut [u8],
) -> Result<usize, Refusal>
    ensures { Admits (record {
      sheet = sheet.entry.now;
      book = book.now;
      line = line.now;
    }) out.old (writing_said result) out.new }
{
    let read = sheet::read(sheet)?;
    judge_line(sheet, read.layout, line)?;
    admit_line(sheet, read.layout, &read.rows, book, line, out)
}

// The book of a sheet with a user line added, from a book that is right for the sheet, at the front of the buffer; or
// the first number that applies, and every byte of the buffer as it was.
pub fn newcomer<'a>(sheet: &'a [u8], book: &'a [u8], line: &'a [u8], out: &mut [u8]) -> WriteAnswer
    ensures { Admits (record {
      sheet = sheet.entry.now;
      book = book.now;
      line = line.now;
    }) out.old (write_said result) out.new }
{
    WriteAnswer::of(write_with_line(sheet, book, line, out))
}
