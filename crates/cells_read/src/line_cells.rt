// Cells of a line, as many as a word has positions at most, as one word.
ghost use Rattle.std.specs.Prelude.{◌≡◌, ◌&&◌, ◌||◌, ℕ, ◌%◌, ◌≤◌, ◌<◌, eqb, length};
ghost use Rattle.bits.specs.Bit.{bit, word_bits};
ghost use Rattle.cells_read.specs.CellsWord.{cell_stands, WordOfCells};

use crate::four_cells::fours_word;
use text::COMMA;

// Reads so many cells from a place on, each a comma and `0` or `1`: the word that says which are `1`, where all stand
// there.
pub fn cells_word(s: &[u8], at: usize, count: usize) -> Option<u64>
    requires { (at ≤ length s.now) × (count ≤ word_bits) }
    ensures { WordOfCells s.now at count result }
{
    if s.len() - at < 2 * count {
        return None;
    }
    let fours = count / 4;
    let mut word = fours_word(s, at, fours)?;
    for i in 4 * fours..count {
        let place = at + 2 * i;
        let cell = s[place + 1];
        if !is_cell(s[place], cell) {
            return None;
        }
        word = with_cell(word, i, cell);
    }
    Some(word)
}

// Whether two bytes are a comma and `0` or `1`.
fn is_cell(before: u8, cell: u8) -> bool
    ensures { result ≡ cell_stands before cell }
{
    if before != COMMA {
        return false;
    }
    if cell == b'0' {
        return true;
    }
    cell == b'1'
}

// A word with position i too, where the cell's byte is odd: `1` is, and `0` is not.
fn with_cell(word: u64, i: usize, cell: u8) -> u64
    requires { i < word_bits }
    ensures { (q : ℕ) → bit result q ≡ (bit word q || (eqb q i && eqb (cell % 2) 1)) }
{
    word | (((cell % 2) as u64) << i)
}
