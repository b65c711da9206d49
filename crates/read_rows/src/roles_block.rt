// Block 2: the permissions of each role.
ghost use Rattle.std.specs.Prelude.{◌*◌, ◌≤◌, length};
ghost use Rattle.std.proofs.Math.Bool.{So};
ghost use Rattle.spec.specs.Limits.{role_limit};
ghost use Rattle.spec.specs.Sheet.{sheet_of};
ghost use Rattle.spec.specs.Refusal.{accepted};
ghost use Rattle.cell_rows.specs.Rows.{row_words, row_bits};
ghost use Rattle.names.specs.LaidOut.{LaidOut};
ghost use Rattle.form.specs.RowSteps.{AllBlank};
ghost use Rattle.read_rows.specs.HeadingSteps.{HeadingReads};
ghost use Rattle.read_rows.specs.RoleSteps.{RoleLinesRead, RolesReads};

use book_lines::{ROLE_NAME_BYTES, permissions_line, put_role_name};
use form::{clear_rows, read_line};
use names::Layout;
use numbers::{ROLE_LIMIT, RoleNo};
use steps::{expect, expect_byte, expect_name};

// The lines of roles that were read: how many there are, and where to go on.
#[derive(Clone, Copy)]
pub struct RolesRead {
    pub roles: usize,
    pub next: usize,
}

// Reads the lines of the roles in order, up to the empty line behind them. Where they do not stand, some may have been
// read: what the rows then have is of no use, and the caller clears them.
fn role_lines(book: &[u8], at: usize, gives: &mut [u64], permissions: usize) -> Option<RolesRead>
    requires { (at ≤ length book.now) × (permissions ≤ row_bits) × (role_limit * row_words ≤ length gives.old)
        × AllBlank gives.old }
    ensures { RoleLinesRead book.now at permissions gives.new result }
{
    let mut next = at;
    for r in 0..ROLE_LIMIT {
        if let Some(end) = expect_byte(book, next, b'\n') {
            return Some(RolesRead {
                roles: r,
                next: end,
            });
        }
        let mut name = [0u8; ROLE_NAME_BYTES];
        let n = put_role_name(&mut name, RoleNo(r));
        let cells = expect(book, next, &name[..n])?;
        next = read_line(book, cells, gives, r, permissions)?;
    }
    let end = expect_byte(book, next, b'\n')?;
    Some(RolesRead {
        roles: ROLE_LIMIT,
        next: end,
    })
}

// Reads the line of names of block 2: `role`, and the sheet's own first line from behind its `user` on, which has the
// permissions. That part is read in whatever case, as a whole: commas and line feeds have no case, and no other byte is
// equal to one, so each name is read in its own case.
fn roles_heading<'a>(book: &'a [u8], at: usize, sheet: &'a [u8]) -> Option<usize>
    requires { (at ≤ length book.now) × So (accepted sheet.now) }
    ensures { HeadingReads (sheet_of sheet.now) book.now at result }
{
    let names = expect(book, at, b"role")?;
    expect_name(book, names, permissions_line(sheet))
}

// Reads block 2 and the empty line behind it into rows that have none set, and leaves none set where there is no
// block 2.
pub fn read_roles<'a>(
    book: &'a [u8],
    at: usize,
    sheet: &'a [u8],
    layout: Layout,
    gives: &mut [u64],
) -> Option<RolesRead>
    requires at_in_bounds { (at ≤ length book.now) × LaidOut sheet.now layout }
    requires row_words_in_bounds { (role_limit * row_words ≤ length gives.old) × AllBlank gives.old }
    ensures { RolesReads (sheet_of sheet.now) book.now at gives.new result }
{
    let lines = roles_heading(book, at, sheet)?;
    let Some(read) = role_lines(book, lines, gives, layout.permissions) else {
        clear_rows(gives);
        return None;
    };
    Some(read)
}
