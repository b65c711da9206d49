// Which grants fit one, word by word.
ghost use Rattle.std.specs.Prelude.{◌<◌};
ghost use Rattle.cell_rows.specs.CellPlaces.{cell_words, cell_limit, FittingWord};

use bits::WORD_BITS;
use numbers::{CELL_WORDS, CellNo, ROW_BITS, ROW_WORDS};

// Word i of the cells that fit the grant at a cell.
#[tactic(auto, unfolding(spec::specs::Limits::user_limit, cell_rows::specs::Rows::row_words, cell_rows::specs::Rows::row_bits))]
pub fn fitting(rows: &[u64; CELL_WORDS], it: CellNo, i: usize) -> u64
    requires { (it.0 < cell_limit) × (i < cell_words) }
    ensures { FittingWord rows.now it.0 i result }
{
    let at = it.0;
    let p = at % ROW_BITS;
    let other = rows[i / ROW_WORDS * ROW_WORDS + p / WORD_BITS];
    if bits::has(other, p % WORD_BITS) {
        rows[at / ROW_BITS * ROW_WORDS + i % ROW_WORDS]
    } else {
        0
    }
}
