// Rows of words cleared.
ghost use Rattle.std.specs.Prelude.{◌≡◌, ◌+◌, ◌*◌, ◌≤◌, length, replicate};
ghost use Rattle.cell_rows.specs.Rows.{row_words};
ghost use Rattle.form.specs.RowCleared.{RowCleared};

use numbers::ROW_WORDS;

// Clears all rows.
pub fn clear_rows(rows: &mut [u64])
    ensures { rows.new ≡ replicate (length rows.old) 0 }
{
    rows.fill(0);
}

// Clears a row.
#[tactic(auto, unfolding(cell_rows::specs::Rows::row_words))]
pub fn clear_row(rows: &mut [u64], row: usize)
    requires { (row + 1) * row_words ≤ length rows.old }
    ensures { RowCleared rows.old rows.new row }
{
    let start = row * ROW_WORDS;
    rows[start..start + ROW_WORDS].fill(0);
}
