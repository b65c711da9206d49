// The counts of the grants open to choice, as others are closed. They change user by user: of some grants of one user,
// the same number fits every grant of another user whose permission the first holds.
ghost use Rattle.std.specs.Prelude.{◌≡◌, false, ℕ, ◌≤◌, ◌<◌, length, get_or};
ghost use Rattle.std.proofs.Math.Bool.{So};
ghost use Rattle.spec.specs.Limits.{user_limit};
ghost use Rattle.cell_rows.specs.CellPlaces.{cell_words, cell_limit, marked};
ghost use Rattle.witness.specs.CountChange.{Enough, TakenOff, at_position};
ghost use Rattle.witness.specs.CountChange.{in_row, fit_count, of_user, of_users, of_users_below};
ghost use Rattle.fit.specs.Columns.{column_words, Columns};
ghost use Rattle.witness.specs.Counts.{Counted};

use crate::row::{has_any, row_apart, row_common, shared_by};
use bits::WORD_BITS;
use fit::{COLUMN_WORDS, PLACE_WORDS, union_of_row};
use numbers::{CELL_LIMIT, CELL_WORDS, ROW_WORDS, UserNo};

// Takes a number off the counts at the positions of some in word m.
#[tactic(auto, unfolding(spec::specs::Limits::user_limit, cell_rows::specs::Rows::row_words))]
fn take_off_at(counts: &mut [u16; CELL_LIMIT], m: usize, some: u64, by: u16)
    requires { (m < cell_words) × (length counts.old ≡ cell_limit)
        × Enough (at_position m some) (λ (n : ℕ). by) counts.old }
    ensures { TakenOff (at_position m some) (λ (n : ℕ). by) counts.old
        counts.new }
{
    for p in bits::positions(some) {
        counts[m * WORD_BITS + p] -= by;
    }
}

// Takes a number off the counts at the positions of a row's words, in the row of user v.
fn take_off_in_row(counts: &mut [u16; CELL_LIMIT], v: UserNo, own: &[u64; ROW_WORDS], by: u16)
    requires { (v.0 < user_limit) × (length counts.old ≡ cell_limit)
        × Enough (in_row v.0 own.now) (λ (n : ℕ). by) counts.old }
    ensures { TakenOff (in_row v.0 own.now) (λ (n : ℕ). by) counts.old
        counts.new }
{
    for (k, some) in own.iter().enumerate() {
        take_off_at(counts, v.0 * ROW_WORDS + k, *some, by);
    }
}

// Some grants of a user: the permissions, as the words of the row.
#[derive(Clone, Copy)]
pub struct SomeGrants {
    pub user: UserNo,
    pub words: [u64; ROW_WORDS],
}

// Takes some grants off the counts of user v's open grants. If their user holds an open grant's permission, those of
// them fit it whose permissions v holds.
fn take_off_for_user<'a>(
    counts: &mut [u16; CELL_LIMIT],
    rows: &'a [u64; CELL_WORDS],
    left: &'a [u64; CELL_WORDS],
    these: SomeGrants,
    v: UserNo,
)
    requires { (these.user.0 < user_limit) × (v.0 < user_limit) × (length counts.old ≡ cell_limit)
        × Enough (of_user left.now v.0) (fit_count rows.now these.user.0 these.words)
        counts.old }
    ensures { TakenOff (of_user left.now v.0) (fit_count rows.now
        these.user.0 these.words) counts.old counts.new }
{
    let own = row_common(left, v, rows, these.user);
    if has_any(&own) {
        let words = these.words;
        let by = shared_by(rows, &words, v);
        take_off_in_row(counts, v, &own, by as u16);
    }
}

// The same for the users at the positions of some in word j of a column.
#[tactic(auto, unfolding(spec::specs::Limits::user_limit))]
fn take_off_for_users<'a>(
    counts: &mut [u16; CELL_LIMIT],
    rows: &'a [u64; CELL_WORDS],
    left: &'a [u64; CELL_WORDS],
    these: SomeGrants,
    j: usize,
    some: u64,
)
    requires { (these.user.0 < user_limit) × (j < column_words) × (length counts.old ≡ cell_limit)
        × Enough (of_users left.now j some) (fit_count rows.now these.user.0 these.words)
        counts.old }
    ensures { TakenOff (of_users left.now j some) (fit_count rows.now
        these.user.0 these.words) counts.old counts.new }
{
    let from = j * WORD_BITS;
    for p in bits::positions(some) {
        take_off_for_user(counts, rows, left, these, UserNo(from + p));
    }
}

// The same for all users. Only those who hold a permission of these grants have any that fit.
fn take_off<'a>(
    counts: &mut [u16; CELL_LIMIT],
    rows: &'a [u64; CELL_WORDS],
    columns: &'a [u64; PLACE_WORDS],
    left: &'a [u64; CELL_WORDS],
    these: SomeGrants,
)
    requires { (these.user.0 < user_limit) × Columns rows.now columns.now × (length counts.old ≡ cell_limit)
        × Enough (of_users_below left.now user_limit) (fit_count rows.now these.user.0
        these.words) counts.old }
    ensures { TakenOff (of_users_below left.now user_limit) (fit_count rows.now
        these.user.0 these.words) counts.old counts.new }
{
    let words = these.words;
    if !has_any(&words) {
        return;
    }
    for j in 0..COLUMN_WORDS {
        let some = union_of_row(columns, &words, 0, j);
        take_off_for_users(counts, rows, left, these, j, some);
    }
}

// Takes the grants that are closed to choice off the counts of the rest. All other counts stay.
pub fn recount<'a>(
    counts: &mut [u16; CELL_LIMIT],
    rows: &'a [u64; CELL_WORDS],
    columns: &'a [u64; PLACE_WORDS],
    left: &'a [u64; CELL_WORDS],
    rest: &'a [u64; CELL_WORDS],
    users: usize,
)
    requires { (users ≤ user_limit) × Columns rows.now columns.now × Counted rows.now left.now users
        counts.old
        × ((n : ℕ) → So (marked rest.now n) → So (marked left.now n)) }
    ensures { Counted rows.now rest.now users counts.new
        × ((n : ℕ) → marked rest.now n ≡ false
        → get_or counts.new n 0 ≡ get_or counts.old n 0) }
{
    for u in 0..users {
        let user = UserNo(u);
        let words = row_apart(left, rest, user);
        let closed = SomeGrants { user, words };
        take_off(counts, rows, columns, rest, closed);
    }
}
