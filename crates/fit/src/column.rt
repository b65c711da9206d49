// The users who can have grants that fit one: those who hold its permission.
ghost use Rattle.std.specs.Prelude.{◌≡◌, ℕ, min, ◌+◌, ◌*◌, ◌≤◌, ◌<◌, length};
ghost use Rattle.spec.specs.Limits.{user_limit};
ghost use Rattle.bits.specs.Counting.{count_below, sum_below};
ghost use Rattle.bits.specs.Bit.{bit, word_bits};
ghost use Rattle.cell_rows.specs.Rows.{row_words, row_bits};
ghost use Rattle.cell_rows.specs.CellPlaces.{cell_limit, near, CountedBelow};
ghost use Rattle.fit.specs.Columns.{column_words, near_in_row, near_if, Columns};
ghost use Rattle.fit.specs.ColumnsMade.{PutIn, PutRow};
ghost use Rattle.fit.specs.ColumnUnion.{in_union, in_row_union};

use crate::fit::fitting;
use bits::WORD_BITS;
use cell_rows::mark;
use numbers::{CELL_WORDS, CellNo, ROW_BITS, ROW_WORDS, USER_LIMIT, UserNo};

// The words of a permission: a position for each user.
pub const COLUMN_WORDS: usize = USER_LIMIT / WORD_BITS;

// The words of all permissions.
pub const PLACE_WORDS: usize = ROW_BITS * COLUMN_WORDS;

// Puts a user into the columns of the permissions at the positions of a word, which is word k of a row.
#[tactic(auto, unfolding(spec::specs::Limits::user_limit, cell_rows::specs::Rows::row_words, cell_rows::specs::Rows::row_bits))]
fn put_in_columns(columns: &mut [u64; PLACE_WORDS], user: UserNo, k: usize, some: u64)
    requires { (user.0 < user_limit) × (k < row_words) × (length columns.old ≡ row_bits * column_words) }
    ensures { PutIn user.0 k some columns.old columns.new }
{
    let u = user.0;
    let from = k * WORD_BITS;
    for p in bits::positions(some) {
        mark(columns, (from + p) * USER_LIMIT + u);
    }
}

// Puts a user into the columns of the permissions held.
#[tactic(auto, unfolding(spec::specs::Limits::user_limit, cell_rows::specs::Rows::row_words))]
fn put_row(columns: &mut [u64; PLACE_WORDS], rows: &[u64; CELL_WORDS], user: UserNo)
    requires { (user.0 < user_limit) × (length columns.old ≡ row_bits * column_words) }
    ensures { PutRow rows.now user.0 columns.old columns.new }
{
    let row = user.0 * ROW_WORDS;
    for k in 0..ROW_WORDS {
        put_in_columns(columns, user, k, rows[row + k]);
    }
}

// For each permission the users who hold it.
#[tactic(auto, unfolding(spec::specs::Limits::user_limit, cell_rows::specs::Rows::row_words, cell_rows::specs::Rows::row_bits))]
pub fn columns_of(rows: &[u64; CELL_WORDS]) -> [u64; PLACE_WORDS]
    ensures { Columns rows.now result }
{
    let mut columns = [0; PLACE_WORDS];
    for u in 0..USER_LIMIT {
        put_row(&mut columns, rows, UserNo(u));
    }
    columns
}

// Word j of the columns of the permissions at the positions of a word, which is word k of a row, all together.
#[tactic(auto, unfolding(spec::specs::Limits::user_limit, cell_rows::specs::Rows::row_words))]
fn union_of(columns: &[u64; PLACE_WORDS], word: u64, k: usize, j: usize) -> u64
    requires { (k < row_words) × (j < column_words) }
    ensures { (t : ℕ) → bit result t ≡ in_union columns.now word k j t }
{
    let from = k * WORD_BITS;
    let mut some = 0;
    for p in bits::positions(word) {
        some |= columns[(from + p) * COLUMN_WORDS + j];
    }
    some
}

// Word j of the columns of the permissions of a row of words, all together.
#[tactic(auto, unfolding(spec::specs::Limits::user_limit, cell_rows::specs::Rows::row_words))]
pub fn union_of_row(columns: &[u64; PLACE_WORDS], words: &[u64], row: usize, j: usize) -> u64
    requires { ((row + 1) * row_words ≤ length words.now) × (j < column_words) }
    ensures { (t : ℕ) → bit result t ≡ in_row_union columns.now words.now row j t }
{
    let mut joined = 0;
    for k in 0..ROW_WORDS {
        joined |= union_of(columns, words[row * ROW_WORDS + k], k, j);
    }
    joined
}

// How many grants of left fit the grant at a cell, of those of a user.
#[tactic(auto, unfolding(spec::specs::Limits::user_limit, cell_rows::specs::Rows::row_words))]
fn near_in_row<'a>(
    rows: &'a [u64; CELL_WORDS],
    left: &'a [u64; CELL_WORDS],
    it: CellNo,
    user: UserNo,
) -> usize
    requires { (it.0 < cell_limit) × (user.0 < user_limit) }
    ensures { result ≡ near_in_row rows.now left.now it.0 user.0 }
{
    let row = user.0 * ROW_WORDS;
    let mut n = 0;
    for k in 0..ROW_WORDS {
        n += bits::count(left[row + k] & fitting(rows, it, row + k));
    }
    n
}

// The count so far, and how many grants of left fit the grant at a cell, of the users at the positions of some. The
// count ends once it reaches most.
#[tactic(auto, unfolding(spec::specs::Limits::user_limit, cell_rows::specs::Rows::row_words, cell_rows::specs::Rows::row_bits))]
fn partners_among<'a>(
    rows: &'a [u64; CELL_WORDS],
    left: &'a [u64; CELL_WORDS],
    it: CellNo,
    from: usize,
    some: u64,
    start: usize,
    most: usize,
) -> usize
    requires { (it.0 < cell_limit) × (from + word_bits ≤ user_limit) × (start ≤ cell_limit) }
    ensures { CountedBelow most
        (start + sum_below word_bits (λ (q : ℕ). near_if (bit some q) rows.now left.now it.0
        (from + q))) result }
{
    let mut n = start;
    for p in bits::positions(some) {
        if n >= most {
            return n;
        }
        n += near_in_row(rows, left, it, UserNo(from + p));
    }
    n
}

// How many cells of left are near a cell, itself among them where it is one, counted over the users of its permission's
// column; most, if there are more.
#[tactic(auto, unfolding(spec::specs::Limits::user_limit, cell_rows::specs::Rows::row_words, cell_rows::specs::Rows::row_bits))]
pub fn partners_in_column<'a>(
    rows: &'a [u64; CELL_WORDS],
    columns: &'a [u64; PLACE_WORDS],
    left: &'a [u64; CELL_WORDS],
    it: CellNo,
    most: usize,
) -> usize
    requires { (it.0 < cell_limit) × Columns rows.now columns.now }
    ensures { result ≡ min most (count_below cell_limit (near rows.now left.now it.0)) }
{
    let p = it.0 % ROW_BITS;
    let mut n = 0;
    for j in 0..COLUMN_WORDS {
        let some = columns[p * COLUMN_WORDS + j];
        n = partners_among(rows, left, it, j * WORD_BITS, some, n, most);
    }
    most.min(n)
}
