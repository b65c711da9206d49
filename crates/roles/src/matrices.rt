// The roles of a sheet, from a placement of its kernel.
ghost use Rattle.std.specs.Prelude.{List, ℕ};
ghost use Rattle.spec.specs.Sheet.{Sheet};
ghost use Rattle.spec.specs.Roles.{roles_of};
ghost use Rattle.product.specs.RoleRows.{RolesAt};
ghost use Rattle.roles.specs.RolesShown.{RolesOnly};
ghost use Rattle.roles.specs.RolesInput.{Belongs, OfSheet};

use crate::classes::all_classes;
use crate::rows::{RoleMatrices, role_rows};
use numbers::{CELL_LIMIT, CELL_WORDS};

// The roles of the sheet that the rows show, from a placement of its kernel and the log of its reduction.
pub fn roles_of<'a>(
    rows: &'a [u64; CELL_WORDS],
    users: usize,
    kernel: &'a [u16],
    placed: &'a [u8],
    total: usize,
    removed: &'a [u16],
    partner: &'a [u16],
) -> RoleMatrices
    requires { OfSheet rows.now users kernel.now placed.now total removed.now partner.now }
    ensures roles_at { (sheet : Sheet) (placement : List ℕ)
        → Belongs rows.now users kernel.now placed.now total
        removed.now partner.now sheet placement
        → RolesAt result.has result.gives result.count users (roles_of sheet placement) }
    ensures roles_only { RolesOnly result.has result.gives result.count users }
{
    let mut class = [0; CELL_LIMIT];
    all_classes(&mut class, kernel, placed, total, removed, partner);
    role_rows(rows, users, &class)
}
