// Sets of cells as rows of words.
ghost use Rattle.std.specs.Prelude.{◌≡◌, ◌||◌, ℕ, ◌≤◌, ◌<◌, eqb, length};
ghost use Rattle.spec.specs.Limits.{user_limit};
ghost use Rattle.bits.specs.Counting.{count_below};
ghost use Rattle.cell_rows.specs.CellPlaces.{cell_words, cell_limit, marked, cells_of};

use cell_rows::mark;
use numbers::{CELL_WORDS, CellNo, ROW_WORDS};

// Puts a cell into a set.
#[tactic(auto, unfolding(spec::specs::Limits::user_limit, cell_rows::specs::Rows::row_words))]
pub fn put_cell(words: &mut [u64; CELL_WORDS], cell: CellNo)
    requires { (cell.0 < cell_limit) × (length words.old ≡ cell_words) }
    ensures { (length words.new ≡ cell_words)
        × ((m : ℕ) → marked words.new m ≡ (marked words.old m || eqb m cell.0)) }
{
    mark(words, cell.0);
}

// How many cells of the users a set has.
#[tactic(auto, unfolding(spec::specs::Limits::user_limit, cell_rows::specs::Rows::row_words))]
pub fn counted(words: &[u64; CELL_WORDS], users: usize) -> usize
    requires { users ≤ user_limit }
    ensures { result ≡ count_below (cells_of users) (marked words.now) }
{
    let mut n = 0;
    for word in &words[..users * ROW_WORDS] {
        n += bits::count(*word);
    }
    n
}
