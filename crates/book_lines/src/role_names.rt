// Role names: `R1`, `R2`, .. for the roles of number 0, 1, ..
ghost use Rattle.std.specs.Prelude.{◌≤◌, ◌<◌, length};
ghost use Rattle.spec.specs.Book.{role_name};
ghost use Rattle.lists.specs.Listed.{listed};
ghost use Rattle.cell_rows.specs.Rows.{row_bits};
ghost use Rattle.text.specs.Line.{behind_comma};
ghost use Rattle.text.specs.Written.{Written};

use decimal::put_counted;
use numbers::RoleNo;

// The bytes of the longest name of a role, `R128`.
pub const ROLE_NAME_BYTES: usize = 4;

// Writes the name of a role.
pub fn put_role_name(out: &mut [u8], role: RoleNo) -> usize
    requires { (role.0 < row_bits) × (length (role_name role.0) ≤ length out.old) }
    ensures { Written (role_name role.0) out.old out.new result }
{
    put_counted(out, b"R", role.0 + 1)
}

// Writes the names of so many roles, a comma before each.
pub fn put_role_fields(out: &mut [u8], roles: usize) -> usize
    requires { (roles ≤ row_bits) × (length (listed roles (λ r. behind_comma (role_name r))) ≤ length out.old) }
    ensures { Written (listed roles (λ r. behind_comma (role_name r))) out.old out.new result }
{
    let mut at = 0;
    for i in 0..roles {
        at += put_counted(&mut out[at..], b",R", i + 1);
    }
    at
}
