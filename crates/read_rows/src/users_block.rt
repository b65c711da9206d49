// Block 3: the roles of each user.
ghost use Rattle.std.specs.Prelude.{◌*◌, ◌≤◌, length};
ghost use Rattle.spec.specs.Limits.{role_limit};
ghost use Rattle.spec.specs.Sheet.{sheet_of, user_count};
ghost use Rattle.cell_rows.specs.Rows.{row_words, row_bits};
ghost use Rattle.names.specs.LaidOut.{LaidOut, UsersAt};
ghost use Rattle.steps.specs.Steps.{Expects};
ghost use Rattle.form.specs.Pieces.{role_fields, users_heading};
ghost use Rattle.form.specs.RowSteps.{AllBlank};
ghost use Rattle.read_rows.specs.UserSteps.{UserLinesRead, UsersReads};

use book_lines::{ROLE_NAME_BYTES, put_role_name};
use form::{clear_rows, read_line};
use names::Layout;
use numbers::{RoleNo, UserNo};
use steps::{expect, expect_byte, expect_name};

// Goes past the names of so many roles, a comma before each.
fn expect_roles(book: &[u8], at: usize, roles: usize) -> Option<usize>
    requires { (at ≤ length book.now) × (roles ≤ role_limit) }
    ensures { Expects book.now at (role_fields roles) result }
{
    let mut next = at;
    for r in 0..roles {
        let start = expect_byte(book, next, b',')?;
        let mut name = [0u8; ROLE_NAME_BYTES];
        let n = put_role_name(&mut name, RoleNo(r));
        next = expect(book, start, &name[..n])?;
    }
    Some(next)
}

// Reads the line of names of block 3: `user` and the roles.
fn users_heading(book: &[u8], at: usize, roles: usize) -> Option<usize>
    requires { (at ≤ length book.now) × (roles ≤ role_limit) }
    ensures { Expects book.now at (users_heading roles) result }
{
    let names = expect(book, at, b"user")?;
    let end = expect_roles(book, names, roles)?;
    expect_byte(book, end, b'\n')
}

// Reads the lines of the users in order, each name in whatever case; `places` are those of the names in the sheet.
// Where the lines do not stand, some may have been read: what the rows then have is of no use, and the caller clears
// them.
fn user_lines<'a, 'b>(
    book: &'a [u8],
    at: usize,
    sheet: &'a [u8],
    places: &'b [u64],
    has: &mut [u64],
    roles: usize,
) -> Option<usize>
    requires at_in_bounds { (at ≤ length book.now) × UsersAt sheet.now places.now × (roles ≤ row_bits) }
    requires row_words_in_bounds { (user_count (sheet_of sheet.now) * row_words ≤ length has.old) × AllBlank has.old }
    ensures { UserLinesRead (sheet_of sheet.now) book.now at roles has.new result }
{
    let mut next = at;
    for u in 0..places.len() {
        let name = names::user_name_in(sheet, places, UserNo(u));
        let cells = expect_name(book, next, name)?;
        next = read_line(book, cells, has, u, roles)?;
    }
    Some(next)
}

// Reads block 3 and the empty line behind it into rows that have none set, and leaves none set where there is no
// block 3.
pub fn read_users<'a>(
    book: &'a [u8],
    at: usize,
    sheet: &'a [u8],
    layout: Layout,
    has: &mut [u64],
    roles: usize,
) -> Option<usize>
    requires at_in_bounds { (at ≤ length book.now) × LaidOut sheet.now layout × (roles ≤ role_limit) }
    requires row_words_in_bounds { (layout.users * row_words ≤ length has.old) × AllBlank has.old }
    ensures { UsersReads (sheet_of sheet.now) book.now at roles has.new result }
{
    let lines = users_heading(book, at, roles)?;
    let users = layout.users;
    let user_places = layout.user_places;
    let places = user_places.at;
    let Some(end) = user_lines(book, lines, sheet, &places[..users], has, roles) else {
        clear_rows(has);
        return None;
    };
    let Some(next) = expect_byte(book, end, b'\n') else {
        clear_rows(has);
        return None;
    };
    Some(next)
}
