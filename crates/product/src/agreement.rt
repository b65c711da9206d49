// Whether the product of the two matrices is a sheet's rows.
ghost use Rattle.std.specs.Prelude.{◌≡◌, ◌+◌, ◌*◌, ◌≤◌, ◌<◌, length};
ghost use Rattle.spec.specs.Vocabulary.{every_below};
ghost use Rattle.cell_rows.specs.Rows.{row_words, row_bits};
ghost use Rattle.product.specs.RowAfter.{roles_in};
ghost use Rattle.product.specs.RowAgrees.{row_agrees};

use crate::role_steps::row_after;
use numbers::{ROW_WORDS, UserNo};

// Whether a user's row after all roles is the user's row of the sheet.
fn row_agrees(rows: &[u64], has: &[u64], gives: &[u64], roles: usize, u: UserNo) -> bool
    requires { (roles ≤ row_bits) × ((u.0 + 1) * row_words ≤ length rows.now)
        × ((u.0 + 1) * row_words ≤ length has.now) × (roles * row_words ≤ length gives.now) }
    ensures { result ≡ row_agrees rows.now (roles_in has.now gives.now roles)
        u.0 }
{
    let at = u.0 * ROW_WORDS;
    let after = row_after(has, gives, u, roles);
    after[..] == rows[at..at + ROW_WORDS]
}

// Whether, for each of the first `users` users, the row after all roles is the user's row of the sheet.
pub fn rows_agree(rows: &[u64], has: &[u64], gives: &[u64], roles: usize, users: usize) -> bool
    requires { (roles ≤ row_bits) × (users * row_words ≤ length rows.now) × (users * row_words ≤ length has.now)
        × (roles * row_words ≤ length gives.now) }
    ensures { result ≡ every_below users (row_agrees rows.now
        (roles_in has.now gives.now roles)) }
{
    for u in 0..users {
        if !row_agrees(rows, has, gives, roles, UserNo(u)) {
            return false;
        }
    }
    true
}
