// The lines of the users, up to the end of the sheet.
ghost use Rattle.std.specs.Prelude.{◌≡◌, ◌+◌, ◌*◌, ◌≤◌, length};
ghost use Rattle.spec.specs.Limits.{sheet_limit};
ghost use Rattle.bits.specs.Counting.{count_below};
ghost use Rattle.cell_rows.specs.Rows.{row_words, row_bits, cell};
ghost use Rattle.sheet.specs.UserLines.{Room, UserLinesReads};

use crate::user_line::read_user_line;
use numbers::{CELL_WORDS, ROW_WORDS, USER_LIMIT};
use places::place_of;

// How many lines there are, and how many of their cells are `1`.
#[derive(Clone, Copy)]
pub struct UserLines {
    pub users: usize,
    pub grants: usize,
}

// How many cells of a row are set.
fn cells_set(rows: &[u64], row: usize) -> usize
    requires { (row + 1) * row_words ≤ length rows.now }
    ensures { result ≡ count_below row_bits (cell rows.now row) }
{
    let mut n = 0;
    for k in 0..ROW_WORDS {
        n += bits::count(rows[row * ROW_WORDS + k]);
    }
    n
}

// Reads the lines from a place on, each with so many cells, and notes where the names stand and which cells are set:
// all are lines of users and no more than there can be users, or there are none.
pub fn read_user_lines(
    s: &[u8],
    start: usize,
    width: usize,
    places: &mut [u64; USER_LIMIT],
    rows: &mut [u64; CELL_WORDS],
) -> Option<UserLines>
    requires { (start ≤ length s.now) × (width ≤ row_bits) × (length s.now ≤ sheet_limit)
        × Room places.old rows.old }
    ensures { UserLinesReads s.now start width places.new rows.new result }
{
    let mut users = 0;
    let mut grants = 0;
    let mut at = start;
    // A line says where the next one starts.
    while at < s.len() {
        if users == USER_LIMIT {
            return None;
        }
        let line = read_user_line(s, at, width, rows, users)?;
        places[users] = place_of(at, line.to);
        grants += cells_set(rows, users);
        users += 1;
        at = line.next;
    }
    Some(UserLines { users, grants })
}
