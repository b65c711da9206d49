// What keeps the grant at a cell from dominating another: grants that fit the other one and not it. They are of users
// who hold the other's permission, and in its user's row.
ghost use Rattle.std.specs.Prelude.{◌≡◌, not, ◌&&◌, ℕ, ◌+◌, ◌*◌, ◌≤◌, ◌<◌};
ghost use Rattle.spec.specs.Limits.{user_limit};
ghost use Rattle.bits.specs.Counting.{NextFrom};
ghost use Rattle.bits.specs.Bit.{bit, word_bits};
ghost use Rattle.cell_rows.specs.Rows.{row_bits};
ghost use Rattle.cell_rows.specs.CellPlaces.{cell_limit};
ghost use Rattle.fit.specs.Columns.{Columns};
ghost use Rattle.verdict.specs.Misfits.{row_fits, misfit_at, is_holder, is_suspect};

use bits::WORD_BITS;
use cells::{permission_of, user_of};
use fit::{COLUMN_WORDS, PLACE_WORDS, fitting};
use numbers::{CELL_WORDS, CellNo, PermissionNo, ROW_WORDS, UserNo};

// Word j of the column of a permission, as far as the users go.
#[tactic(auto, unfolding(spec::specs::Limits::user_limit, cell_rows::specs::Rows::row_words, cell_rows::specs::Rows::row_bits))]
pub fn holders(columns: &[u64; PLACE_WORDS], users: usize, p: PermissionNo, j: usize) -> u64
    requires { (users ≤ user_limit) × (p.0 < row_bits) × (j * word_bits < users) }
    ensures { (q : ℕ) → q < word_bits → bit result q ≡ is_holder columns.now users p.0 j q }
{
    let word = columns[p.0 * COLUMN_WORDS + j];
    let count = users - j * WORD_BITS;
    if WORD_BITS <= count {
        return word;
    }
    word & bits::full(count)
}

// Word j of the column of the other grant's permission, without users who cannot have a grant that fits it and not
// the grant at a cell: where both have one user, those who hold both permissions.
#[tactic(auto, unfolding(spec::specs::Limits::user_limit, cell_rows::specs::Rows::row_words, cell_rows::specs::Rows::row_bits))]
fn suspects(columns: &[u64; PLACE_WORDS], users: usize, it: CellNo, other: CellNo, j: usize) -> u64
    requires { (users ≤ user_limit) × (j * word_bits < users) }
    ensures { (q : ℕ) → q < word_bits
        → bit result q ≡ is_suspect columns.now users it.0 other.0 j q }
{
    let held = holders(columns, users, permission_of(other), j);
    if user_of(it).0 != user_of(other).0 {
        return held;
    }
    bits::apart(held, holders(columns, users, permission_of(it), j))
}

// Whether the grants of user x in left that are in the row of user v all fit the grant at a cell.
#[tactic(auto, unfolding(spec::specs::Limits::user_limit, cell_rows::specs::Rows::row_words))]
fn row_fits<'a>(
    rows: &'a [u64; CELL_WORDS],
    left: &'a [u64; CELL_WORDS],
    it: CellNo,
    v: UserNo,
    x: UserNo,
) -> bool
    requires { (it.0 < cell_limit) × (v.0 < user_limit) × (x.0 < user_limit) }
    ensures { result ≡ row_fits rows.now left.now it.0 v.0 x.0 }
{
    for d in 0..ROW_WORDS {
        let i = x.0 * ROW_WORDS + d;
        if !bits::within(left[i] & rows[v.0 * ROW_WORDS + d], fitting(rows, it, i)) {
            return false;
        }
    }
    true
}

// The first position of some whose user has a grant of left in the row of user v that does not fit the grant at a
// cell, else the end of a word.
#[tactic(auto, unfolding(spec::specs::Limits::user_limit))]
fn misfit_among<'a>(
    rows: &'a [u64; CELL_WORDS],
    left: &'a [u64; CELL_WORDS],
    it: CellNo,
    v: UserNo,
    from: usize,
    some: u64,
) -> usize
    requires { (it.0 < cell_limit) × (v.0 < user_limit) × (from + word_bits ≤ user_limit) }
    ensures { NextFrom (λ (q : ℕ). bit some q && not (row_fits rows.now left.now
        it.0 v.0 (from + q))) 0 word_bits result }
{
    for q in bits::positions(some) {
        if !row_fits(rows, left, it, v, UserNo(from + q)) {
            return q;
        }
    }
    WORD_BITS
}

// The first user with a grant of left that fits the other grant and does not fit the grant at a cell, else the end of
// the users.
#[tactic(auto, unfolding(spec::specs::Limits::user_limit, cell_rows::specs::Rows::row_words, cell_rows::specs::Rows::row_bits))]
pub fn misfit<'a>(
    rows: &'a [u64; CELL_WORDS],
    columns: &'a [u64; PLACE_WORDS],
    left: &'a [u64; CELL_WORDS],
    users: usize,
    it: CellNo,
    other: CellNo,
) -> usize
    requires { (users ≤ user_limit) × (it.0 < cell_limit) × (other.0 < cell_limit)
        × Columns rows.now columns.now }
    ensures { NextFrom (misfit_at rows.now left.now it.0 other.0) 0 users result }
{
    let v = user_of(other);
    for j in 0..users.div_ceil(WORD_BITS) {
        let some = suspects(columns, users, it, other, j);
        let q = misfit_among(rows, left, it, v, j * WORD_BITS, some);
        if q < WORD_BITS {
            return j * WORD_BITS + q;
        }
    }
    users
}
