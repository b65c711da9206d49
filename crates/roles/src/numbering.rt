// Roles numbered by their lowest grant: the next grant in order takes the role of its class.
ghost use Rattle.std.specs.Prelude.{◌≡◌, suc, ◌<◌, max, set};
ghost use Rattle.spec.specs.Limits.{grant_limit};
ghost use Rattle.cell_rows.specs.Rows.{row_bits};
ghost use Rattle.cover.specs.CoverKeys.{class_from};
ghost use Rattle.roles.specs.RoleNumbers.{class_limit, no_role};

use crate::limits::CLASS_LIMIT;
use numbers::{GRANT_LIMIT, RoleNo};

// What the table has for a class with no role yet: no role has this number.
pub const NO_ROLE: u16 = GRANT_LIMIT as u16;

// A role by its number.
fn role(number: u16) -> RoleNo
    ensures { result.0 ≡ number }
{
    RoleNo(number as usize)
}

// The role of a class: the one that the table has, else the next one, which the table has from then on.
pub fn role_for(table: &mut [u16; CLASS_LIMIT], count: usize, class: usize) -> RoleNo
    requires { (count < grant_limit) × (class < class_limit) }
    ensures { (result.0 ≡ class_from no_role table.old count class)
        × (table.new ≡ set table.old class result.0) }
{
    let known = table[class];
    if known != NO_ROLE {
        return role(known);
    }
    table[class] = count as u16;
    RoleNo(count)
}

// How many roles there are once this one is among them.
pub fn counted(count: usize, role: RoleNo) -> usize
    requires { role.0 < row_bits }
    ensures { result ≡ max (suc role.0) count }
{
    count.max(role.0 + 1)
}
