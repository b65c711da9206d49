// What is left over of a user's permissions.
ghost use Rattle.std.specs.Prelude.{◌<◌};
ghost use Rattle.spec.specs.Limits.{user_limit};
ghost use Rattle.cell_rows.specs.Rows.{row_bits};
ghost use Rattle.cells.specs.MadeCells.{MadeCells};
ghost use Rattle.admitting.specs.LeftRow.{not_taken};

use numbers::{CELL_WORDS, ROW_WORDS, UserNo};
use std::array;

// A row with what a user holds and what is not taken.
#[tactic(auto, unfolding(spec::specs::Limits::user_limit, cell_rows::specs::Rows::row_words))]
pub fn left_row<'a>(
    rows: &'a [u64; CELL_WORDS],
    user: UserNo,
    taken: &'a [u64; ROW_WORDS],
) -> [u64; ROW_WORDS]
    requires { user.0 < user_limit }
    ensures { MadeCells (not_taken rows.now user.0 taken.now) row_bits result }
{
    array::from_fn(|k| bits::apart(rows[user.0 * ROW_WORDS + k], taken[k]))
}
