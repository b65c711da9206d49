// The first counts of the grants open to choice. They are gathered user by user: the grants that fit one are those of
// the users who hold its permission, with permissions that its own user holds.
ghost use Rattle.std.specs.Prelude.{◌≡◌, false, ℕ, ◌+◌, ◌*◌, ◌%◌, ◌≤◌, ◌<◌, length, get_or};
ghost use Rattle.spec.specs.Limits.{user_limit};
ghost use Rattle.bits.specs.Bit.{word_bits};
ghost use Rattle.cell_rows.specs.Rows.{row_words, row_bits};
ghost use Rattle.cell_rows.specs.CellPlaces.{cell_limit, marked};
ghost use Rattle.fit.specs.Columns.{column_words, Columns};
ghost use Rattle.fit.specs.Laws.Column.{word_sum};
ghost use Rattle.witness.specs.CountChange.{ChangedAt, at_position, in_row, of_user};
ghost use Rattle.witness.specs.Counts.{near_below, Counted};
ghost use Rattle.witness.specs.FirstCounts.{SharesOf, Bounded, gathered};

use crate::row::{has_any, row_of, shared_by};
use bits::WORD_BITS;
use fit::{COLUMN_WORDS, PLACE_WORDS};
use numbers::{CELL_LIMIT, CELL_WORDS, PermissionNo, ROW_WORDS, USER_LIMIT, UserNo};

// How many grants of each user have permissions that user v holds.
#[tactic(auto, unfolding(spec::specs::Limits::user_limit))]
fn shares_of<'a>(
    rows: &'a [u64; CELL_WORDS],
    left: &'a [u64; CELL_WORDS],
    users: usize,
    v: UserNo,
) -> [u16; USER_LIMIT]
    requires { (users ≤ user_limit) × (v.0 < user_limit) }
    ensures { SharesOf rows.now left.now v.0 users result }
{
    let mut shares = [0; USER_LIMIT];
    for u in 0..users {
        let row = row_of(left, UserNo(u));
        let share = shared_by(rows, &row, v);
        shares[u] = share as u16;
    }
    shares
}

// The sum of the shares at the positions of a word, as word j of a column.
#[tactic(auto, unfolding(spec::specs::Limits::user_limit))]
fn sum_in_word(shares: &[u16; USER_LIMIT], j: usize, word: u64) -> u16
    requires { (j < column_words) × Bounded shares.now }
    ensures { result ≡ word_sum (λ (q : ℕ). get_or shares.now (j * word_bits + q) 0) word }
{
    let from = j * WORD_BITS;
    let mut sum = 0;
    for p in bits::positions(word) {
        sum += shares[from + p];
    }
    sum
}

// The sum of the shares of the users who hold a permission.
#[tactic(auto, unfolding(spec::specs::Limits::user_limit, cell_rows::specs::Rows::row_words, cell_rows::specs::Rows::row_bits))]
fn sum_in_column(columns: &[u64; PLACE_WORDS], shares: &[u16; USER_LIMIT], p: PermissionNo) -> u16
    requires { (p.0 < row_bits) × Bounded shares.now }
    ensures { result ≡ gathered columns.now shares.now p.0 }
{
    let mut sum = 0;
    for j in 0..COLUMN_WORDS {
        let word = columns[p.0 * COLUMN_WORDS + j];
        sum += sum_in_word(shares, j, word);
    }
    sum
}

// Puts in the counts at the positions of a word, which is word k of user v's row.
#[tactic(auto, unfolding(spec::specs::Limits::user_limit, cell_rows::specs::Rows::row_words, cell_rows::specs::Rows::row_bits))]
fn count_in_word(
    counts: &mut [u16; CELL_LIMIT],
    columns: &[u64; PLACE_WORDS],
    shares: &[u16; USER_LIMIT],
    v: UserNo,
    k: usize,
    word: u64,
)
    requires { (v.0 < user_limit) × (k < row_words) × (length counts.old ≡ cell_limit) × Bounded shares.now }
    ensures { ChangedAt (at_position (v.0 * row_words + k) word) (λ (n count : ℕ). gathered
        columns.now shares.now (n % row_bits)) counts.old counts.new }
{
    let from = k * WORD_BITS;
    let m = v.0 * ROW_WORDS + k;
    for q in bits::positions(word) {
        let sum = sum_in_column(columns, shares, PermissionNo(from + q));
        counts[m * WORD_BITS + q] = sum;
    }
}

// The same at the positions of user v's row.
fn count_in_row(
    counts: &mut [u16; CELL_LIMIT],
    columns: &[u64; PLACE_WORDS],
    shares: &[u16; USER_LIMIT],
    v: UserNo,
    row: &[u64; ROW_WORDS],
)
    requires { (v.0 < user_limit) × (length counts.old ≡ cell_limit) × Bounded shares.now }
    ensures { ChangedAt (in_row v.0 row.now) (λ (n count : ℕ). gathered columns.now
        shares.now (n % row_bits)) counts.old counts.new }
{
    for (k, word) in row.iter().enumerate() {
        count_in_word(counts, columns, shares, v, k, *word);
    }
}

// Puts in the counts of user v's grants.
fn count_user<'a>(
    counts: &mut [u16; CELL_LIMIT],
    rows: &'a [u64; CELL_WORDS],
    columns: &'a [u64; PLACE_WORDS],
    left: &'a [u64; CELL_WORDS],
    users: usize,
    v: UserNo,
)
    requires { (users ≤ user_limit) × (v.0 < user_limit) × Columns rows.now columns.now
        × (length counts.old ≡ cell_limit) }
    ensures { ChangedAt (of_user left.now v.0) (λ (n count : ℕ). near_below rows.now
        left.now n users) counts.old counts.new }
{
    let row = row_of(left, v);
    if has_any(&row) {
        let shares = shares_of(rows, left, users, v);
        count_in_row(counts, columns, &shares, v, &row);
    }
}

// The counts of all grants of a set. At every other cell there is 0.
pub fn first_counts<'a>(
    rows: &'a [u64; CELL_WORDS],
    columns: &'a [u64; PLACE_WORDS],
    left: &'a [u64; CELL_WORDS],
    users: usize,
) -> [u16; CELL_LIMIT]
    requires { (users ≤ user_limit) × Columns rows.now columns.now }
    ensures { Counted rows.now left.now users result
        × ((n : ℕ) → marked left.now n ≡ false → get_or result n 0 ≡ 0) }
{
    let mut counts = [0; CELL_LIMIT];
    for v in 0..USER_LIMIT {
        count_user(&mut counts, rows, columns, left, users, UserNo(v));
    }
    counts
}
