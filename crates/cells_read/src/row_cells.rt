// The cells of a line as a row of words.
ghost use Rattle.std.specs.Prelude.{◌+◌, ◌*◌, ◌≤◌, length};
ghost use Rattle.cell_rows.specs.Rows.{row_words, row_bits};
ghost use Rattle.cells_read.specs.RowGrown.{Blank};
ghost use Rattle.cells_read.specs.RowCells.{CellsRead};

use crate::line_cells::cells_word;
use cell_rows::cells_in_word;
use numbers::ROW_WORDS;

// Reads so many cells into a row that has none set. Where they do not stand, the row may have some of them.
#[tactic(auto, unfolding(cell_rows::specs::Rows::row_words))]
pub fn read_cells(
    text: &[u8],
    at: usize,
    rows: &mut [u64],
    row: usize,
    count: usize,
) -> Option<usize>
    requires { (at ≤ length text.now) × (count ≤ row_bits) × ((row + 1) * row_words ≤ length rows.old)
        × Blank rows.old row }
    ensures { CellsRead text.now at row count rows.old rows.new result }
{
    let mut next = at;
    for k in 0..ROW_WORDS {
        let n = cells_in_word(count, k);
        rows[row * ROW_WORDS + k] = cells_word(text, next, n)?;
        next += 2 * n;
    }
    Some(next)
}
