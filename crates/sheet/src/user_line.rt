// The line of a user: a name, a cell for each permission, and the line feed.
ghost use Rattle.std.specs.Prelude.{◌+◌, ◌*◌, ◌≤◌, length};
ghost use Rattle.cell_rows.specs.Rows.{row_words, row_bits};
ghost use Rattle.cells_read.specs.RowGrown.{Blank};
ghost use Rattle.sheet.specs.UserLine.{UserLineReads};

use crate::spelled::read_name;
use cells_read::read_cells;
use text::{LINE_FEED, stands_at};

// Where the name of such a line ends, and where the next line starts.
#[derive(Clone, Copy)]
pub struct UserLine {
    pub to: usize,
    pub next: usize,
}

// Reads the line of a user that starts at a place, and its so many cells into a row that has none set. Where no such
// line stands, the row may have some cells.
pub fn read_user_line(
    s: &[u8],
    at: usize,
    width: usize,
    rows: &mut [u64],
    row: usize,
) -> Option<UserLine>
    requires { (at ≤ length s.now) × (width ≤ row_bits) × ((row + 1) * row_words ≤ length rows.old)
        × Blank rows.old row }
    ensures { UserLineReads s.now at width row rows.old rows.new result }
{
    let to = read_name(s, at)?;
    let end = read_cells(s, to, rows, row, width)?;
    if !stands_at(s, end, LINE_FEED) {
        return None;
    }
    Some(UserLine { to, next: end + 1 })
}
