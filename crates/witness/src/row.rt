// Sets of permissions, as the words of one row.
ghost use Rattle.std.specs.Prelude.{◌≡◌, not, ◌&&◌, ℕ, ◌<◌, eqb, get_or};
ghost use Rattle.bits.specs.Counting.{some_below};
ghost use Rattle.spec.specs.Limits.{user_limit};
ghost use Rattle.cell_rows.specs.Rows.{row_words, row_bits, cell};
ghost use Rattle.cells.specs.MadeCells.{MadeCells};
ghost use Rattle.witness.specs.CountChange.{shared};

use numbers::{CELL_WORDS, ROW_WORDS, UserNo};
use std::array;

// The row of a user.
#[tactic(auto, unfolding(spec::specs::Limits::user_limit, cell_rows::specs::Rows::row_words))]
pub fn row_of(words: &[u64; CELL_WORDS], u: UserNo) -> [u64; ROW_WORDS]
    requires { u.0 < user_limit }
    ensures { MadeCells (cell words.now u.0) row_bits result }
{
    array::from_fn(|k| words[u.0 * ROW_WORDS + k])
}

// What the row of user u has in the one set and not in the other.
#[tactic(auto, unfolding(spec::specs::Limits::user_limit, cell_rows::specs::Rows::row_words))]
pub fn row_apart<'a>(
    words: &'a [u64; CELL_WORDS],
    others: &'a [u64; CELL_WORDS],
    u: UserNo,
) -> [u64; ROW_WORDS]
    requires { u.0 < user_limit }
    ensures { MadeCells (λ (p : ℕ). cell words.now u.0 p
        && not (cell others.now u.0 p)) row_bits result }
{
    array::from_fn(|k| {
        let i = u.0 * ROW_WORDS + k;
        bits::apart(words[i], others[i])
    })
}

// What the row of user u in the one set and the row of user v in the other have in common.
#[tactic(auto, unfolding(spec::specs::Limits::user_limit, cell_rows::specs::Rows::row_words))]
pub fn row_common<'a>(
    words: &'a [u64; CELL_WORDS],
    u: UserNo,
    others: &'a [u64; CELL_WORDS],
    v: UserNo,
) -> [u64; ROW_WORDS]
    requires { (u.0 < user_limit) × (v.0 < user_limit) }
    ensures { MadeCells (λ (p : ℕ). cell words.now u.0 p
        && cell others.now v.0 p) row_bits result }
{
    array::from_fn(|k| words[u.0 * ROW_WORDS + k] & others[v.0 * ROW_WORDS + k])
}

// Whether a row has any permission.
pub fn has_any(row: &[u64; ROW_WORDS]) -> bool
    ensures { result ≡ some_below row_words (λ (k : ℕ). not (eqb (get_or row.now k 0) 0)) }
{
    row.iter().any(|word| *word != 0)
}

// How many permissions of a row user v holds.
#[tactic(auto, unfolding(spec::specs::Limits::user_limit, cell_rows::specs::Rows::row_words))]
pub fn shared_by(rows: &[u64; CELL_WORDS], row: &[u64; ROW_WORDS], v: UserNo) -> usize
    requires { v.0 < user_limit }
    ensures { result ≡ shared rows.now row.now v.0 }
{
    let mut n = 0;
    for (k, word) in row.iter().enumerate() {
        n += bits::count(*word & rows[v.0 * ROW_WORDS + k]);
    }
    n
}
