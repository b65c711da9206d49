// A newcomer among the roles of an existing book.
ghost use Rattle.std.specs.Prelude.{◌≤◌, ◌<◌};
ghost use Rattle.spec.specs.Limits.{user_limit, role_limit};
ghost use Rattle.spec.specs.Sheet.{Sheet};
ghost use Rattle.product.specs.RowAfter.{roles_in};
ghost use Rattle.admitting.specs.RowsAdmitted.{AdmitReady, RowsAdmitted};

use crate::got::roles_got;
use crate::left::left_row;
use crate::put::{put_new_role, put_row};
use cell_rows::holds_row;
use numbers::{CELL_WORDS, ROLE_LIMIT, ROLE_WORDS, RoleNo, UserNo};
use product::row_after;

// The newcomer, a user of the sheet that the rows show, gets each role whose permissions they all hold: what these
// roles hold is the only row of their product. If permissions are left over, one new role, the last, holds exactly
// those, and only the newcomer has it. How many roles there are then, or none where there is no room for the new one.
pub fn admit<'a>(
    rows: &'a [u64; CELL_WORDS],
    user: UserNo,
    has: &mut [u64; CELL_WORDS],
    gives: &mut [u64; ROLE_WORDS],
    roles: usize,
) -> Option<usize>
    requires { (user.0 < user_limit) × (roles ≤ role_limit) }
    ensures { (sheet : Sheet) → AdmitReady sheet rows.now user.0 has.old
        gives.old roles
        → RowsAdmitted sheet user.0 (roles_in has.old gives.old roles) has.new
        gives.new result }
{
    let u = user.0;
    let got = roles_got(rows, gives, user, roles);
    let taken = row_after(&got, gives, UserNo(0), roles);
    if holds_row(&taken, rows, 0, u) {
        put_row(has, u, &got);
        return Some(roles);
    }
    if roles == ROLE_LIMIT {
        return None;
    }
    let left = left_row(rows, user, &taken);
    put_new_role(has, gives, user, RoleNo(roles), got, &left);
    Some(roles + 1)
}
