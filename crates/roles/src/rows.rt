// The two matrices of roles as rows of words, for each user the roles and for each role the permissions, in one walk
// over the grants.
ghost use Rattle.std.specs.Prelude.{◌≡◌, true, ◌+◌, ◌*◌, ◌/◌, ◌%◌, ◌≤◌, ◌<◌, length};
ghost use Rattle.spec.specs.Limits.{user_limit};
ghost use Rattle.bits.specs.Bit.{word_bits};
ghost use Rattle.cell_rows.specs.Rows.{row_bits};
ghost use Rattle.cell_rows.specs.CellPlaces.{cell_words, cell_limit};
ghost use Rattle.cell_rows.specs.CellAdded.{CellAdded};
ghost use Rattle.roles.specs.RoleMatrices.{role_words};
ghost use Rattle.roles.specs.RoleWalk.{ClassedRows, RolesTo, RolesFound};

use crate::limits::CLASS_LIMIT;
use crate::numbering::{NO_ROLE, counted, role_for};
use bits::WORD_BITS;
use cell_rows::mark;
use cells::{permission_of, user_of};
use numbers::{CELL_LIMIT, CELL_WORDS, CellNo, ROLE_WORDS, ROW_BITS, ROW_WORDS, RoleNo};

// Who has which role, what each role gives, and how many roles there are.
#[derive(Clone, Copy)]
pub struct RoleMatrices {
    pub has: [u64; CELL_WORDS],
    pub gives: [u64; ROLE_WORDS],
    pub count: usize,
}

// The user of the grant at a cell has this role, and the role gives its permission.
fn put_in_role(
    has: &mut [u64; CELL_WORDS],
    gives: &mut [u64; ROLE_WORDS],
    cell: CellNo,
    role: RoleNo,
)
    requires { (length has.old ≡ cell_words) × (length gives.old ≡ role_words) × (cell.0 < cell_limit)
        × (role.0 < row_bits) }
    ensures { CellAdded has.old has.new (cell.0 / row_bits) role.0 true
        × CellAdded gives.old gives.new role.0 (cell.0 % row_bits) true }
{
    let user = user_of(cell).0;
    let permission = permission_of(cell).0;
    let role = role.0;
    mark(has, user * ROW_BITS + role);
    mark(gives, role * ROW_BITS + permission);
}

// Each grant of word i of the rows: its user has the role of its class, and that role gives its permission. How many
// roles there are then.
fn word_roles<'a>(
    table: &mut [u16; CLASS_LIMIT],
    has: &mut [u64; CELL_WORDS],
    gives: &mut [u64; ROLE_WORDS],
    count: usize,
    rows: &'a [u64; CELL_WORDS],
    class: &'a [u16; CELL_LIMIT],
    i: usize,
) -> usize
    requires i_lt_cell_words { (i < cell_words) × ClassedRows rows.now class.now }
    requires roles_to { RolesTo rows.now class.now (i * word_bits) table.old has.old gives.old count }
    ensures { RolesTo rows.now class.now ((i + 1) * word_bits) table.new
        has.new gives.new result }
{
    let mut known = count;
    for p in bits::positions(rows[i]) {
        let cell = i * WORD_BITS + p;
        let of_class = class[cell] as usize;
        let role = role_for(table, known, of_class);
        put_in_role(has, gives, CellNo(cell), role);
        known = counted(known, role);
    }
    known
}

// The roles of the grants of the first rows, from the class of each at its cell.
pub fn role_rows<'a>(
    rows: &'a [u64; CELL_WORDS],
    users: usize,
    class: &'a [u16; CELL_LIMIT],
) -> RoleMatrices
    requires { (users ≤ user_limit) × ClassedRows rows.now class.now }
    ensures { RolesFound rows.now class.now (users * row_bits) result.has result.gives
        result.count }
{
    let mut table = [NO_ROLE; CLASS_LIMIT];
    let mut has = [0; CELL_WORDS];
    let mut gives = [0; ROLE_WORDS];
    let mut count = 0;
    for i in 0..users * ROW_WORDS {
        count = word_roles(&mut table, &mut has, &mut gives, count, rows, class, i);
    }
    RoleMatrices { has, gives, count }
}
