// The fit table of a kernel that can be searched: bit j of grant i's words says that grants i and j fit.
ghost use Rattle.std.specs.Prelude.{◌≡◌, map, ℕ, Bool, ◌/◌, ◌%◌, ◌≤◌, ◌<◌, eqb, length, get_or, take};
ghost use Rattle.numbers.specs.declared.numbers.CellNo.{CellNo};
ghost use Rattle.bits.specs.Counting.{some_below};
ghost use Rattle.spec.specs.Sheet.{Sheet};
ghost use Rattle.spec.specs.Reduction.{kernel};
ghost use Rattle.bits.specs.Bit.{word_bits};
ghost use Rattle.cell_rows.specs.Rows.{row_bits};
ghost use Rattle.cell_rows.specs.CellPlaces.{grant_of, marked, Shown};
ghost use Rattle.cells.specs.KernelArray.{KernelListed};
ghost use Rattle.table.specs.TableWords.{table_limit, FirstBits, Table};
ghost use Rattle.table.specs.TableParts.{CellsFrom, passed_from, ColumnsOf};
ghost use Rattle.table.specs.TableHeld.{HeldBy};

use bits::WORD_BITS;
use cell_rows::mark;
use cells::{Kernel, holds, permission_of, user_of};
use numbers::{
    CELL_WORDS, CellNo, KERNEL_LIMIT, KERNEL_WORDS, PermissionNo, ROW_BITS, ROW_WORDS, TABLE_WORDS,
    UserNo,
};

// The cells of a word from a place on: as many as there are, or as the word has positions.
fn cells_from(size: usize, from: usize) -> usize
    ensures { CellsFrom size from result }
{
    size.saturating_sub(from).min(WORD_BITS)
}

// Those of the cells of a word that a test passes.
fn passing_word<F: Fn(CellNo) -> bool>(cells: &[u16], from: usize, passes: F) -> u64
    requires { (from < table_limit) × F.IsAlwaysCallable passes }
    ensures { (test : ℕ → Bool) → ((at : CellNo) (r : Bool) → F.post passes at r → r ≡ test at.0)
        → FirstBits (passed_from test cells.now from) word_bits result }
{
    let count = cells_from(cells.len(), from);
    let mut word = 0;
    for q in 0..count {
        let at = cells[from + q] as usize;
        if passes(CellNo(at)) {
            word = bits::with(word, q);
        }
    }
    word
}

// The permissions of the first cells, as a row.
#[tactic(auto, unfolding(cell_rows::specs::Rows::row_words, cell_rows::specs::Rows::row_bits))]
fn permissions_among(cells: &[u16], count: usize) -> [u64; ROW_WORDS]
    requires { count ≤ length cells.now }
    ensures { (p : ℕ) → marked result p ≡ some_below count (λ (i : ℕ). eqb p (get_or cells.now i 0
        % row_bits)) }
{
    let mut row = [0; ROW_WORDS];
    for at in &cells[..count] {
        let it = CellNo(*at as usize);
        mark(&mut row, permission_of(it).0);
    }
    row
}

// For each permission of a row, the cells of a word whose users hold it.
#[tactic(auto, unfolding(cell_rows::specs::Rows::row_words, cell_rows::specs::Rows::row_bits))]
fn columns<'a>(
    rows: &'a [u64],
    cells: &'a [u16],
    from: usize,
    some: &'a [u64; ROW_WORDS],
) -> [u64; ROW_BITS]
    requires { from < table_limit }
    ensures { ColumnsOf rows.now cells.now from some.now row_bits result }
{
    let mut words = [0; ROW_BITS];
    for (p, word) in words.iter_mut().enumerate() {
        if bits::has(some[p / WORD_BITS], p % WORD_BITS) {
            let held = PermissionNo(p);
            *word = passing_word(cells, from, |at| holds(rows, user_of(at), held));
        }
    }
    words
}

// A user, and the cells whose permissions the user holds, in two words.
#[derive(Clone, Copy)]
struct HolderCells {
    user: UserNo,
    low: u64,
    high: u64,
}

// The user of a cell, and the cells whose permissions that user holds.
#[tactic(auto, unfolding(crate::specs::TableWords::table_row, cell_rows::specs::Rows::row_words, cell_rows::specs::Rows::row_bits))]
fn held_by<'a>(rows: &'a [u64], cells: &'a [u16], it: CellNo) -> HolderCells
    ensures { HeldBy rows.now cells.now (it.0 / row_bits) result }
{
    let user = user_of(it);
    let low = passing_word(cells, 0, |at| holds(rows, user, permission_of(at)));
    let high = passing_word(cells, WORD_BITS, |at| holds(rows, user, permission_of(at)));
    HolderCells { user, low, high }
}

// The same, where they may have been found already.
fn held_again<'a>(last: HolderCells, rows: &'a [u64], cells: &'a [u16], it: CellNo) -> HolderCells
    requires { HeldBy rows.now cells.now last.user.0 last }
    ensures { HeldBy rows.now cells.now (it.0 / row_bits) result }
{
    if last.user.0 == user_of(it).0 {
        return last;
    }
    held_by(rows, cells, it)
}

// How many grants of so many a table has room for.
#[tactic(auto, unfolding(crate::specs::TableWords::table_row))]
fn limited(size: usize) -> usize
    ensures { (result ≤ size) × (result ≤ table_limit) × (result < table_limit → result ≡ size) }
{
    size.min(KERNEL_LIMIT)
}

// The fit table of the grants at some cells, as far as it has room: those that fit a grant are the cells whose
// permissions its user holds and whose users hold its permission.
#[tactic(auto, unfolding(crate::specs::TableWords::table_row, cell_rows::specs::Rows::row_words, cell_rows::specs::Rows::row_bits))]
fn table_of<'a>(rows: &'a [u64], cells: &'a [u16]) -> [u64; TABLE_WORDS]
    ensures { (users : ℕ) (sheet : Sheet) → Shown rows.now users sheet
        → Table sheet (map grant_of cells.now) result }
{
    let count = limited(cells.len());
    let some = permissions_among(cells, count);
    let low = columns(rows, cells, 0, &some);
    let high = columns(rows, cells, WORD_BITS, &some);
    let mut last = held_by(rows, cells, CellNo(0));
    let mut words = [0; TABLE_WORDS];
    for (i, at) in cells[..count].iter().enumerate() {
        let it = CellNo(*at as usize);
        last = held_again(last, rows, cells, it);
        let p = permission_of(it).0;
        words[i * KERNEL_WORDS] = last.low & low[p];
        words[i * KERNEL_WORDS + 1] = last.high & high[p];
    }
    words
}

// The fit table of the kernel of the sheet that the rows show, or of its first grants if it has more than KERNEL_LIMIT.
#[tactic(auto, unfolding(spec::specs::Limits::grant_limit))]
pub fn fit_table(rows: &[u64; CELL_WORDS], grants: Kernel) -> [u64; TABLE_WORDS]
    requires { KernelListed rows.now grants.cells grants.size }
    ensures { (users : ℕ) (sheet : Sheet) → Shown rows.now users sheet
        → map grant_of (take grants.size grants.cells) ≡ kernel sheet → Table sheet (kernel sheet) result }
{
    let cells = grants.cells;
    let size = grants.size;
    table_of(rows, &cells[..size])
}
