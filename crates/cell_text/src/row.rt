// Rows of cells, `1` or `0` for each.
ghost use Rattle.std.specs.Prelude.{◌≡◌, ◌∷◌, [], ◌+◌, ◌*◌, ◌≤◌, ◌<◌, length};
ghost use Rattle.spec.specs.Sheet.{cell_text};
ghost use Rattle.bits.specs.Bit.{word_bits};
ghost use Rattle.cell_rows.specs.Rows.{row_words, row_bits, cell};
ghost use Rattle.cell_text.specs.CellsText.{cell_field, word_text, cells_text};
ghost use Rattle.text.specs.Written.{Written};

use crate::fours::put_fours;
use bits::WORD_BITS;
use cell_rows::cells_in_word;
use numbers::ROW_WORDS;

// The cell of a row of words.
#[tactic(auto, unfolding(cell_rows::specs::Rows::row_words, cell_rows::specs::Rows::row_bits))]
pub fn cell_at(words: &[u64], row: usize, i: usize) -> bool
    requires { (i < row_bits) × ((row + 1) * row_words ≤ length words.now) }
    ensures { result ≡ cell words.now row i }
{
    bits::has(words[row * ROW_WORDS + i / WORD_BITS], i % WORD_BITS)
}

// A cell as books spell it.
fn cell_byte(cell: bool) -> u8
    ensures { result ∷ [] ≡ cell_text cell }
{
    if cell { b'1' } else { b'0' }
}

// Writes a comma and a cell.
fn put_cell(out: &mut [u8], cell: bool) -> usize
    requires { length (cell_field cell) ≤ length out.old }
    ensures { Written (cell_field cell) out.old out.new result }
{
    out[0] = b',';
    out[1] = cell_byte(cell);
    2
}

// Writes the first `count` cells of a word, a comma before each.
fn put_word(out: &mut [u8], word: u64, count: usize) -> usize
    requires count_le_word_bits { count ≤ word_bits }
    requires count_in_bounds { length (word_text word count) ≤ length out.old }
    ensures { Written (word_text word count) out.old out.new result }
{
    let fours = count / 4;
    let mut at = put_fours(out, word, fours);
    for i in 4 * fours..count {
        let cell = bits::has(word, i);
        at += put_cell(&mut out[at..], cell);
    }
    at
}

// Writes the first `count` cells of a row, a comma before each.
#[tactic(auto, unfolding(cell_rows::specs::Rows::row_words))]
pub fn put_cells(out: &mut [u8], words: &[u64], row: usize, count: usize) -> usize
    requires count_le_row_bits { (count ≤ row_bits) × ((row + 1) * row_words ≤ length words.now) }
    requires count_in_bounds { length (cells_text words.now row count) ≤ length out.old }
    ensures { Written (cells_text words.now row count) out.old out.new result }
{
    let mut at = 0;
    for k in 0..ROW_WORDS {
        let here = cells_in_word(count, k);
        at += put_word(&mut out[at..], words[row * ROW_WORDS + k], here);
    }
    at
}
