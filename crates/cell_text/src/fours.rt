// Four cells at once: their eight bytes are copied from a table.
ghost use Rattle.std.specs.Prelude.{◌≡◌, ◌*◌, ◌≤◌, length};
ghost use Rattle.bits.specs.Bit.{bit, word_bits};
ghost use Rattle.cell_text.specs.CellsText.{word_text};
ghost use Rattle.cell_text.specs.FourCells.{four_fields, fours};
ghost use Rattle.text.specs.Written.{Written};

use text::put_bytes;

// Four cells with a comma before each, for each of the sixteen that four can be, the first cell the lowest digit.
const FOURS: [u8; 128] = *b",0,0,0,0,1,0,0,0,0,1,0,0,1,1,0,0\
    ,0,0,1,0,1,0,1,0,0,1,1,0,1,1,1,0\
    ,0,0,0,1,1,0,0,1,0,1,0,1,1,1,0,1\
    ,0,0,1,1,1,0,1,1,0,1,1,1,1,1,1,1";

// Writes the four lowest cells of a word, a comma before each. The table is lent, so that a word lays it out once.
fn put_four(out: &mut [u8], table: &[u8], word: u64) -> usize
    requires table_value { table.now ≡ fours 16 }
    requires word_in_bounds { length (four_fields (bit word 0) (bit word 1) (bit word 2) (bit word 3))
        ≤ length out.old }
    ensures { Written (four_fields (bit word 0) (bit word 1) (bit word 2) (bit word 3)) out.old
        out.new result }
{
    let from = 8 * (word % 16) as usize;
    put_bytes(out, &table[from..from + 8])
}

// Writes the cells of a word four by four, a comma before each.
pub fn put_fours(out: &mut [u8], word: u64, fours: usize) -> usize
    requires fours_bound { 4 * fours ≤ word_bits }
    requires fours_in_bounds { length (word_text word (4 * fours)) ≤ length out.old }
    ensures { Written (word_text word (4 * fours)) out.old out.new result }
{
    let table = FOURS;
    let mut at = 0;
    for i in 0..fours {
        at += put_four(&mut out[at..], &table, word >> (4 * i));
    }
    at
}
