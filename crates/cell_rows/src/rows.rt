// Rows of words for the cells of a sheet: a row for each user, a bit for each permission.
ghost use Rattle.std.specs.Prelude.{◌≡◌, ◌+◌, ◌*◌, ◌/◌, ◌≤◌, ◌<◌, length, replicate};
ghost use Rattle.spec.specs.Limits.{user_limit};
ghost use Rattle.bits.specs.Bit.{word_bits};
ghost use Rattle.cell_rows.specs.Rows.{row_words};
ghost use Rattle.cell_rows.specs.RowWords.{in_word};
ghost use Rattle.cell_rows.specs.RowHeld.{holds_row};
ghost use Rattle.cell_rows.specs.CellAdded.{PositionSet};

use bits::WORD_BITS;
use numbers::{CELL_WORDS, ROW_WORDS};

// Rows with no cell set.
#[tactic(auto, unfolding(spec::specs::Limits::user_limit, crate::specs::Rows::row_words))]
pub fn no_rows() -> [u64; CELL_WORDS]
    ensures { result ≡ replicate (user_limit * row_words) 0 }
{
    [0; CELL_WORDS]
}

// Position n of some words is set, counted through all of them.
pub fn mark(words: &mut [u64], n: usize)
    requires { n / word_bits < length words.old }
    ensures { PositionSet words.old words.new n }
{
    let i = n / WORD_BITS;
    words[i] = bits::with(words[i], n % WORD_BITS);
}

// How many of the first `count` cells of a row stand in word k.
#[tactic(auto, unfolding(crate::specs::Rows::row_words))]
pub fn cells_in_word(count: usize, k: usize) -> usize
    requires { k < row_words }
    ensures { result ≡ in_word count k }
{
    count.saturating_sub(k * WORD_BITS).min(WORD_BITS)
}

// Whether row u has every cell of row r of what is asked.
#[tactic(auto, unfolding(crate::specs::Rows::row_words, spec::specs::Vocabulary::every_below))]
pub fn holds_row<'a>(rows: &'a [u64], asked: &'a [u64], u: usize, r: usize) -> bool
    requires { ((u + 1) * row_words ≤ length rows.now) × ((r + 1) * row_words ≤ length asked.now) }
    ensures { result ≡ holds_row rows.now asked.now u r }
{
    for k in 0..ROW_WORDS {
        if !bits::within(asked[r * ROW_WORDS + k], rows[u * ROW_WORDS + k]) {
            return false;
        }
    }
    true
}
