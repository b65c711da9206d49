// The kernel's grants in order.
ghost use Rattle.std.specs.Prelude.{◌≡◌, List, ℕ, ◌+◌, ◌*◌, ◌/◌, ◌%◌, ◌^◌, ◌≤◌, ◌<◌, get_or};
ghost use Rattle.spec.specs.Limits.{user_limit};
ghost use Rattle.bits.specs.Bit.{word_bits};
ghost use Rattle.bits.specs.Counting.{NextFrom};
ghost use Rattle.cell_rows.specs.Rows.{row_words, row_bits, cell};
ghost use Rattle.cell_rows.specs.CellPlaces.{cell_words, marked};
ghost use Rattle.cells.specs.KernelArray.{Roomy, Listed};
ghost use Rattle.cells.specs.KernelList.{ListedTo};

use bits::WORD_BITS;
use numbers::{CELL_WORDS, CellNo, GRANT_LIMIT, PermissionNo, ROW_BITS, ROW_WORDS, UserNo};

// Grants in order: the cell of each by its number, and how many there are.
#[repr(C)]
#[derive(Clone, Copy)]
pub struct Kernel {
    pub cells: [u16; GRANT_LIMIT],
    pub size: usize,
}

// The lowest cell from a place on that is set, else the end of the users' rows.
pub fn next_cell(words: &[u64; CELL_WORDS], users: usize, from: CellNo) -> CellNo
    requires { (users ≤ user_limit) × (from.0 ≤ users * row_bits) }
    ensures { NextFrom (marked words.now) from.0 (users * row_bits) result.0 }
{
    let mut start = from.0 % WORD_BITS;
    for i in from.0 / WORD_BITS..users * ROW_WORDS {
        let p = bits::lowest_from(words[i], start);
        if p < WORD_BITS {
            return CellNo(i * WORD_BITS + p);
        }
        start = 0;
    }
    CellNo(users * ROW_BITS)
}

// The cells of word i of a set, put in behind those that are there, as far as there is room. How many there are then.
fn list_word(word: u64, i: usize, cells: &mut [u16; GRANT_LIMIT], start: usize) -> usize
    requires { i < cell_words }
    ensures { (left : List ℕ) → get_or left i 0 ≡ word → ListedTo left (i * word_bits) cells.old start
        → ListedTo left ((i + 1) * word_bits) cells.new result }
{
    let mut size = start;
    for p in bits::positions(word) {
        if size >= GRANT_LIMIT {
            return size;
        }
        cells[size] = (i * WORD_BITS + p) as u16;
        size += 1;
    }
    size
}

// The grants of a set in order. The set has no more of them than a sheet can have, and past them the array is 0.
pub fn listed(left: &[u64; CELL_WORDS], users: usize) -> Kernel
    requires { (users ≤ user_limit) × Roomy left.now (users * row_bits) }
    ensures { Listed left.now users result.cells result.size }
{
    let mut cells = [0; GRANT_LIMIT];
    let mut size = 0;
    for i in 0..users * ROW_WORDS {
        size = list_word(left[i], i, &mut cells, size);
    }
    Kernel { cells, size }
}

// The user of a cell.
pub fn user_of(cell: CellNo) -> UserNo
    ensures { result.0 ≡ cell.0 / row_bits }
{
    UserNo(cell.0 / ROW_BITS)
}

// The permission of a cell.
pub fn permission_of(cell: CellNo) -> PermissionNo
    ensures { result.0 ≡ cell.0 % row_bits }
{
    PermissionNo(cell.0 % ROW_BITS)
}

// Whether a user holds a permission, as the rows say.
pub fn holds(rows: &[u64], u: UserNo, p: PermissionNo) -> bool
    requires { u.0 * row_words + p.0 / word_bits < 2 ^ word_bits }
    ensures { result ≡ cell rows.now u.0 p.0 }
{
    let p = p.0;
    let i = u.0 * ROW_WORDS + p / WORD_BITS;
    i < rows.len() && bits::has(rows[i], p % WORD_BITS)
}
