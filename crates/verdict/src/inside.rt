// The users whose grants those of one user can be tied to: those whose remaining grants are all in that user's row.
ghost use Rattle.std.specs.Prelude.{◌≡◌, ℕ, ◌+◌, ◌*◌, ◌<◌};
ghost use Rattle.spec.specs.Limits.{user_limit};
ghost use Rattle.bits.specs.Counting.{some_below};
ghost use Rattle.bits.specs.Bit.{bit, word_bits};
ghost use Rattle.cell_rows.specs.CellPlaces.{Part};
ghost use Rattle.cells.specs.MadeCells.{MadeCells};
ghost use Rattle.fit.specs.Columns.{column_words, Columns};
ghost use Rattle.verdict.specs.Insides.{has_cells, in_row, may_tie};

use bits::WORD_BITS;
use fit::{COLUMN_WORDS, PLACE_WORDS, union_of_row};
use numbers::{CELL_WORDS, ROW_WORDS, UserNo};

// Whether w has a position.
fn has_any(w: u64) -> bool
    ensures { result ≡ some_below word_bits (bit w) }
{
    w != 0
}

// Whether user x has grants of left.
#[tactic(auto, unfolding(spec::specs::Limits::user_limit, cell_rows::specs::Rows::row_words))]
pub fn has_grants(left: &[u64; CELL_WORDS], x: UserNo) -> bool
    requires { x.0 < user_limit }
    ensures { result ≡ has_cells left.now x.0 }
{
    for d in 0..ROW_WORDS {
        if has_any(left[x.0 * ROW_WORDS + d]) {
            return true;
        }
    }
    false
}

// Whether the grants of user x in left are all in the row of user v.
#[tactic(auto, unfolding(spec::specs::Limits::user_limit, cell_rows::specs::Rows::row_words))]
fn in_row<'a>(
    rows: &'a [u64; CELL_WORDS],
    left: &'a [u64; CELL_WORDS],
    v: UserNo,
    x: UserNo,
) -> bool
    requires { (v.0 < user_limit) × (x.0 < user_limit) }
    ensures { result ≡ in_row rows.now left.now v.0 x.0 }
{
    for d in 0..ROW_WORDS {
        if !bits::within(left[x.0 * ROW_WORDS + d], rows[v.0 * ROW_WORDS + d]) {
            return false;
        }
    }
    true
}

// Whether user x has grants of left, all in the row of user v.
fn is_inside<'a>(
    rows: &'a [u64; CELL_WORDS],
    left: &'a [u64; CELL_WORDS],
    v: UserNo,
    x: UserNo,
) -> bool
    requires { (v.0 < user_limit) × (x.0 < user_limit) }
    ensures { result ≡ may_tie rows.now left.now v.0 x.0 }
{
    if !has_grants(left, x) {
        return false;
    }
    in_row(rows, left, v, x)
}

// The users at word j of the columns who have grants of left, all in the row of user v. They hold permissions of that
// row.
#[tactic(auto, unfolding(spec::specs::Limits::user_limit, cell_rows::specs::Rows::row_words))]
fn inside_among<'a>(
    rows: &'a [u64; CELL_WORDS],
    columns: &'a [u64; PLACE_WORDS],
    left: &'a [u64; CELL_WORDS],
    v: UserNo,
    j: usize,
) -> u64
    requires { (v.0 < user_limit) × (j < column_words) × Part left.now rows.now
        × Columns rows.now columns.now }
    ensures { (q : ℕ) → q < word_bits
        → bit result q ≡ may_tie rows.now left.now v.0 (j * word_bits + q) }
{
    let mut inside = union_of_row(columns, rows, v.0, j);
    for q in bits::positions(inside) {
        if !is_inside(rows, left, v, UserNo(j * WORD_BITS + q)) {
            inside = bits::without(inside, q);
        }
    }
    inside
}

// The users who have grants of left, all in the row of user v.
#[tactic(auto, unfolding(spec::specs::Limits::user_limit))]
pub fn insides<'a>(
    rows: &'a [u64; CELL_WORDS],
    columns: &'a [u64; PLACE_WORDS],
    left: &'a [u64; CELL_WORDS],
    v: UserNo,
) -> [u64; COLUMN_WORDS]
    requires { (v.0 < user_limit) × Part left.now rows.now × Columns rows.now columns.now }
    ensures { MadeCells (may_tie rows.now left.now v.0) user_limit result }
{
    let mut words = [0; COLUMN_WORDS];
    for j in 0..COLUMN_WORDS {
        words[j] = inside_among(rows, columns, left, v, j);
    }
    words
}
