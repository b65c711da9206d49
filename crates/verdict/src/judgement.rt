// The judgement of one grant against those remaining.
ghost use Rattle.std.specs.Prelude.{◌≡◌, not, ◌&&◌, ℕ, ◌+◌, ◌*◌, ◌/◌, ◌<◌, ◌≤◌, eqb};
ghost use Rattle.std.proofs.Math.Bool.{So};
ghost use Rattle.spec.specs.Limits.{user_limit};
ghost use Rattle.bits.specs.Counting.{count_below};
ghost use Rattle.bits.specs.Bit.{bit, word_bits};
ghost use Rattle.cell_rows.specs.Rows.{row_words, row_bits};
ghost use Rattle.cell_rows.specs.CellPlaces.{cell_words, cell_limit, marked, near, Part, cells_of};
ghost use Rattle.fit.specs.Columns.{Columns};
ghost use Rattle.verdict.specs.Insides.{Insides};
ghost use Rattle.verdict.specs.Misfits.{users_before};
ghost use Rattle.verdict.specs.NearCells.{tie_at};
ghost use Rattle.verdict.specs.ReductionVerdict.{FoundIn, Judgeable, GrantJudged};

use crate::domination::{holders, misfit};
use bits::WORD_BITS;
use cells::permission_of;
use fit::{COLUMN_WORDS, PLACE_WORDS, partners_in_column};
use numbers::{CELL_WORDS, CellNo, ROW_WORDS, UserNo};

// A grant stays, or is removed as single or tied to another.
#[derive(Clone, Copy)]
pub enum Verdict {
    Stays,
    Single,
    Tied(CellNo),
}

// Whether w, which has a position, has no other one.
fn is_one(w: u64) -> bool
    requires { 0 < w }
    ensures { result ≡ eqb (count_below word_bits (bit w)) 1 }
{
    bits::without_lowest(w) == 0
}

// Whether no other grant of left fits the grant at a cell, which is one of left. All grants of its word do.
#[tactic(auto, unfolding(spec::specs::Limits::user_limit, cell_rows::specs::Rows::row_words))]
fn is_single<'a>(
    rows: &'a [u64; CELL_WORDS],
    columns: &'a [u64; PLACE_WORDS],
    left: &'a [u64; CELL_WORDS],
    it: CellNo,
) -> bool
    requires { (it.0 < cell_limit) × So (marked left.now it.0) × Part left.now rows.now
        × Columns rows.now columns.now }
    ensures { result ≡ eqb (count_below cell_limit (near rows.now left.now it.0)) 1 }
{
    let at = it.0;
    if !is_one(left[at / WORD_BITS]) {
        return false;
    }
    partners_in_column(rows, columns, left, it, 2) == 1
}

// The positions of word i whose cells of left are other than the grant at a cell.
#[tactic(auto, unfolding(spec::specs::Limits::user_limit, cell_rows::specs::Rows::row_words))]
fn candidates(left: &[u64; CELL_WORDS], it: CellNo, i: usize) -> u64
    requires { i < cell_words }
    ensures { (q : ℕ) → q < word_bits → bit result q ≡ (marked left.now (i * word_bits + q)
        && not (eqb (i * word_bits + q) it.0)) }
{
    let at = it.0;
    if i == at / WORD_BITS {
        bits::without(left[i], at % WORD_BITS)
    } else {
        left[i]
    }
}

// The lowest cell of word i to which the grant at a cell is tied. A user who keeps it from one candidate keeps it
// from all whose permissions that user holds.
#[tactic(auto, unfolding(spec::specs::Limits::user_limit, cell_rows::specs::Rows::row_words))]
fn tie_in<'a>(
    rows: &'a [u64; CELL_WORDS],
    columns: &'a [u64; PLACE_WORDS],
    left: &'a [u64; CELL_WORDS],
    users: usize,
    it: CellNo,
    i: usize,
) -> Option<CellNo>
    requires { (users ≤ user_limit) × (it.0 < cell_limit) × (i < users * row_words)
        × Columns rows.now columns.now }
    ensures { FoundIn (tie_at rows.now left.now users it.0) (i * word_bits)
        ((i + 1) * word_bits) result }
{
    let mut w = candidates(left, it, i);
    // Not by an iterator: a step takes more positions away than the lowest.
    while w != 0 {
        let other = i * WORD_BITS + bits::lowest(w);
        let x = misfit(rows, columns, left, users, it, CellNo(other));
        if x == users {
            return Some(CellNo(other));
        }
        w = bits::apart(w, rows[x * ROW_WORDS + i % ROW_WORDS]);
    }
    None
}

// The lowest cell of user x to which the grant at a cell is tied.
#[tactic(auto, unfolding(spec::specs::Limits::user_limit, cell_rows::specs::Rows::row_words))]
fn tie_of_user<'a>(
    rows: &'a [u64; CELL_WORDS],
    columns: &'a [u64; PLACE_WORDS],
    left: &'a [u64; CELL_WORDS],
    users: usize,
    it: CellNo,
    x: UserNo,
) -> Option<CellNo>
    requires { (users ≤ user_limit) × (it.0 < cell_limit) × (x.0 < users) × Columns rows.now columns.now }
    ensures { FoundIn (tie_at rows.now left.now users it.0) (x.0 * row_bits)
        ((x.0 + 1) * row_bits) result }
{
    for d in 0..ROW_WORDS {
        let found = tie_in(rows, columns, left, users, it, x.0 * ROW_WORDS + d);
        if found.is_some() {
            return found;
        }
    }
    None
}

// The lowest cell to which the grant at a cell is tied, among those of the users at word j of the columns. Only a
// user who holds its permission, and whose grants are all in its row, has one.
#[tactic(auto, unfolding(spec::specs::Limits::user_limit, cell_rows::specs::Rows::row_words, cell_rows::specs::Rows::row_bits))]
fn tie_among<'a>(
    rows: &'a [u64; CELL_WORDS],
    columns: &'a [u64; PLACE_WORDS],
    inside: &'a [u64; COLUMN_WORDS],
    left: &'a [u64; CELL_WORDS],
    users: usize,
    it: CellNo,
    j: usize,
) -> Option<CellNo>
    requires { (users ≤ user_limit) × (it.0 < cell_limit) × (j * word_bits < users)
        × Part left.now rows.now
        × Columns rows.now columns.now × Insides rows.now left.now (it.0 / row_bits) inside.now
        × So (marked left.now it.0) }
    ensures { FoundIn (tie_at rows.now left.now users it.0)
        (users_before users j * row_bits) (users_before users (j + 1) * row_bits) result }
{
    let some = holders(columns, users, permission_of(it), j) & inside[j];
    for q in bits::positions(some) {
        let found = tie_of_user(rows, columns, left, users, it, UserNo(j * WORD_BITS + q));
        if found.is_some() {
            return found;
        }
    }
    None
}

// The lowest cell of left to which the grant at a cell is tied.
#[tactic(auto, unfolding(spec::specs::Limits::user_limit))]
fn tie<'a>(
    rows: &'a [u64; CELL_WORDS],
    columns: &'a [u64; PLACE_WORDS],
    inside: &'a [u64; COLUMN_WORDS],
    left: &'a [u64; CELL_WORDS],
    users: usize,
    it: CellNo,
) -> Option<CellNo>
    requires { (users ≤ user_limit) × (it.0 < cell_limit) × Part left.now rows.now
        × Columns rows.now columns.now
        × Insides rows.now left.now (it.0 / row_bits) inside.now × So (marked left.now it.0) }
    ensures { FoundIn (tie_at rows.now left.now users it.0) 0 (cells_of users) result }
{
    for j in 0..users.div_ceil(WORD_BITS) {
        let found = tie_among(rows, columns, inside, left, users, it, j);
        if found.is_some() {
            return found;
        }
    }
    None
}

// No other grant of left fits it: single; else it dominates another: tied to the lowest such.
pub fn judge<'a>(
    rows: &'a [u64; CELL_WORDS],
    columns: &'a [u64; PLACE_WORDS],
    inside: &'a [u64; COLUMN_WORDS],
    left: &'a [u64; CELL_WORDS],
    users: usize,
    it: CellNo,
) -> Verdict
    requires { Judgeable rows.now left.now users it.0 × Columns rows.now columns.now
        × Insides rows.now left.now (it.0 / row_bits) inside.now }
    ensures { GrantJudged rows.now left.now users it.0 result }
{
    if is_single(rows, columns, left, it) {
        return Verdict::Single;
    }
    match tie(rows, columns, inside, left, users, it) {
        Some(other) => Verdict::Tied(other),
        None => Verdict::Stays,
    }
}
