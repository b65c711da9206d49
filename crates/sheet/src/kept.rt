// A sheet that keeps all rules, read in one pass.
ghost use Rattle.std.specs.Prelude.{◌≡◌, not, ◌&&◌};
ghost use Rattle.spec.specs.Vocabulary.{repeats};
ghost use Rattle.spec.specs.Text.{same_name};
ghost use Rattle.names.specs.NamesAt.{Inside, all_names};
ghost use Rattle.sheet.specs.KeptSheet.{SheetRoom, SheetLines};

use crate::first_line::read_first_line;
use crate::user_lines::read_user_lines;
use buckets::repeated_in;
use numbers::{CELL_WORDS, GRANT_LIMIT, SHEET_LIMIT, USER_LIMIT};

// The counts of a sheet.
#[derive(Clone, Copy)]
pub struct Counts {
    pub users: usize,
    pub permissions: usize,
    pub grants: usize,
}

// Reads a sheet line by line, where its lines are such as the rules ask for and within all limits, and notes where its
// names stand and the words of its cells. Whether a name stands twice is not asked here.
pub fn read_lines(
    s: &[u8],
    permissions: &mut [u64; USER_LIMIT],
    users: &mut [u64; USER_LIMIT],
    rows: &mut [u64; CELL_WORDS],
) -> Option<Counts>
    requires { SheetRoom permissions.old users.old rows.old }
    ensures { SheetLines s.now permissions.new users.new rows.new result }
{
    if SHEET_LIMIT < s.len() {
        return None;
    }
    let first = read_first_line(s, permissions)?;
    let lines = read_user_lines(s, first.next, first.permissions, users, rows)?;
    if lines.users == 0 {
        return None;
    }
    if GRANT_LIMIT < lines.grants {
        return None;
    }
    Some(Counts {
        users: lines.users,
        permissions: first.permissions,
        grants: lines.grants,
    })
}

// Whether no two users and no two permissions have one name.
pub fn are_apart(s: &[u8], users: &[u64], permissions: &[u64]) -> bool
    requires { Inside s.now users.now × Inside s.now permissions.now }
    ensures { result ≡ (not (repeats same_name (all_names s.now users.now))
        && not (repeats same_name (all_names s.now permissions.now))) }
{
    !repeated_in(s, users) && !repeated_in(s, permissions)
}
