// A line behind its name.
ghost use Rattle.std.specs.Prelude.{◌+◌, ◌*◌, ◌≤◌, length};
ghost use Rattle.cell_rows.specs.Rows.{row_words, row_bits};
ghost use Rattle.cells_read.specs.RowGrown.{Blank};
ghost use Rattle.form.specs.LineSteps.{LineReads};

use crate::clear::clear_row;
use cells_read::read_cells;
use steps::expect_byte;

// Reads so many cells and the end of the line into a row that has none set, and where they do not stand leaves the row
// so.
pub fn read_line(
    book: &[u8],
    at: usize,
    rows: &mut [u64],
    row: usize,
    count: usize,
) -> Option<usize>
    requires { (at ≤ length book.now) × (count ≤ row_bits) × ((row + 1) * row_words ≤ length rows.old)
        × Blank rows.old row }
    ensures { LineReads book.now at row count rows.old rows.new result }
{
    let Some(end) = read_cells(book, at, rows, row, count) else {
        clear_row(rows, row);
        return None;
    };
    let Some(next) = expect_byte(book, end, b'\n') else {
        clear_row(rows, row);
        return None;
    };
    Some(next)
}
