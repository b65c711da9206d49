// Rows put in the two matrices.
ghost use Rattle.std.specs.Prelude.{◌+◌, ◌*◌, ◌≤◌, ◌<◌, length};
ghost use Rattle.spec.specs.Limits.{user_limit, role_limit};
ghost use Rattle.cell_rows.specs.Rows.{row_words};
ghost use Rattle.admitting.specs.RowPut.{RowPut, NewRolePut};

use cell_rows::mark;
use numbers::{CELL_WORDS, ROLE_WORDS, ROW_WORDS, RoleNo, UserNo};

// A row takes the place of another.
#[tactic(auto, unfolding(cell_rows::specs::Rows::row_words))]
pub fn put_row(words: &mut [u64], row: usize, new: &[u64; ROW_WORDS])
    requires { (row + 1) * row_words ≤ length words.old }
    ensures { RowPut words.old words.new row new.now }
{
    let at = row * ROW_WORDS;
    words[at..at + ROW_WORDS].copy_from_slice(new);
}

// A user has the roles got, and a new one, whose row of permissions is put in too.
pub fn put_new_role(
    has: &mut [u64; CELL_WORDS],
    gives: &mut [u64; ROLE_WORDS],
    user: UserNo,
    role: RoleNo,
    got: [u64; ROW_WORDS],
    new: &[u64; ROW_WORDS],
)
    requires { (user.0 < user_limit) × (role.0 < role_limit) }
    ensures { NewRolePut has.old has.new gives.old gives.new user.0
        role.0 got new.now }
{
    let mut wider = got;
    let role = role.0;
    mark(&mut wider, role);
    put_row(has, user.0, &wider);
    put_row(gives, role, new);
}
