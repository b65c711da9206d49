// The first line of a sheet: `user` and the names of the permissions.
ghost use Rattle.std.specs.Prelude.{◌≡◌, ◌≤◌, length};
ghost use Rattle.spec.specs.Limits.{sheet_limit};
ghost use Rattle.sheet.specs.FirstLine.{says_user, NamesRoom, FirstLineReads};

use crate::spelled::read_name;
use numbers::{PERMISSION_LIMIT, USER_LIMIT};
use places::place_of;
use spelling::is_user;
use text::{COMMA, LINE_FEED, stands_at};

// How many names the line has, and where the next line starts.
#[derive(Clone, Copy)]
pub struct FirstLine {
    pub permissions: usize,
    pub next: usize,
}

// How many bytes `user` has.
const USER_LENGTH: usize = 4;

// Reads the first line, and notes where the names stand: some names and no more than there can be permissions.
pub fn read_first_line(s: &[u8], places: &mut [u64; USER_LIMIT]) -> Option<FirstLine>
    requires { (length s.now ≤ sheet_limit) × NamesRoom places.old }
    ensures { FirstLineReads s.now places.new result }
{
    if !starts_with_user(s) {
        return None;
    }
    let mut count = 0;
    let mut at = USER_LENGTH;
    // A name says where the next one starts.
    while stands_at(s, at, COMMA) {
        if count == PERMISSION_LIMIT {
            return None;
        }
        let start = at + 1;
        let to = read_name(s, start)?;
        places[count] = place_of(start, to);
        count += 1;
        at = to;
    }
    if count == 0 {
        return None;
    }
    if !stands_at(s, at, LINE_FEED) {
        return None;
    }
    Some(FirstLine {
        permissions: count,
        next: at + 1,
    })
}

// Whether a text starts with `user`.
fn starts_with_user(s: &[u8]) -> bool
    ensures { result ≡ says_user s.now }
{
    USER_LENGTH <= s.len() && is_user(&s[..USER_LENGTH])
}
