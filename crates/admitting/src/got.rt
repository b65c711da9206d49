// The roles that a user gets.
ghost use Rattle.std.specs.Prelude.{◌≤◌, ◌<◌};
ghost use Rattle.spec.specs.Limits.{user_limit, role_limit};
ghost use Rattle.admitting.specs.RolesGot.{RolesGot};

use cell_rows::{holds_row, mark};
use numbers::{CELL_WORDS, ROLE_WORDS, ROW_WORDS, UserNo};

// A row with those of the first roles whose permissions a user all holds.
pub fn roles_got<'a>(
    rows: &'a [u64; CELL_WORDS],
    gives: &'a [u64; ROLE_WORDS],
    user: UserNo,
    roles: usize,
) -> [u64; ROW_WORDS]
    requires { (user.0 < user_limit) × (roles ≤ role_limit) }
    ensures { RolesGot rows.now gives.now user.0 roles result }
{
    let mut got = [0; ROW_WORDS];
    for r in 0..roles {
        if holds_row(rows, gives, user.0, r) {
            mark(&mut got, r);
        }
    }
    got
}
