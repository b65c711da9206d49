// The witness: the greedy choice from the kernel, and the singles.
ghost use Rattle.std.specs.Prelude.{◌≡◌, ℕ, ◌≤◌, ◌<◌, length, get_or};
ghost use Rattle.spec.specs.Limits.{grant_limit, user_limit};
ghost use Rattle.spec.specs.Sheet.{Sheet};
ghost use Rattle.spec.specs.Reduction.{singles_of};
ghost use Rattle.verdict.specs.Log.{log_of};
ghost use Rattle.cell_rows.specs.CellPlaces.{cell_words, cell_limit, Shown, Part};
ghost use Rattle.fit.specs.Columns.{Columns};
ghost use Rattle.witness.specs.WitnessGreedy.{Chosen};
ghost use Rattle.witness.specs.WitnessSingles.{CellsOf};
ghost use Rattle.witness.specs.WitnessRows.{ReducedTo, ReducedRows, Witnessed};

use crate::choice::{dropped, fewest};
use crate::counts::recount;
use crate::first::first_counts;
use crate::sets::{counted, put_cell};
use cells::next_cell;
use fit::PLACE_WORDS;
use numbers::{CELL_WORDS, CellNo, GRANT_LIMIT, ROW_BITS};

// Puts the grants taken from a set one after the other into another, each with the fewest partners among those left,
// and dropped with them. Where the set is empty there is nothing to count.
fn choose<'a>(
    cells: &mut [u64; CELL_WORDS],
    rows: &'a [u64; CELL_WORDS],
    columns: &'a [u64; PLACE_WORDS],
    kernel: &'a [u64; CELL_WORDS],
    users: usize,
)
    requires { (users ≤ user_limit) × Columns rows.now columns.now × (length cells.old ≡ cell_words) }
    ensures { (sheet : Sheet) → Shown rows.now users sheet → Part kernel.now
        rows.now
        → Chosen sheet rows.now kernel.now cells.old cells.new }
{
    let first = next_cell(kernel, users, CellNo(0));
    if first.0 == users * ROW_BITS {
        return;
    }
    let mut counts = first_counts(rows, columns, kernel, users);
    let mut left = *kernel;
    for _ in 0..GRANT_LIMIT {
        let Some(best) = fewest(&left, &counts, users) else {
            return;
        };
        put_cell(cells, best.cell);
        let rest = dropped(rows, &left, users, best.cell);
        recount(&mut counts, rows, columns, &left, &rest, users);
        left = rest;
    }
}

// The cells of the grants that a log of removals has as single.
#[tactic(auto, unfolding(spec::specs::Limits::grant_limit, spec::specs::Limits::user_limit, cell_rows::specs::Rows::row_words))]
pub fn single_cells<'a>(
    removed: &'a [u16; GRANT_LIMIT],
    partner: &'a [u16; GRANT_LIMIT],
    count: usize,
) -> [u64; CELL_WORDS]
    requires { (count ≤ grant_limit) × ((i : ℕ) → i < count → get_or removed.now i 0 < cell_limit) }
    ensures { CellsOf result (singles_of (log_of removed.now partner.now count)) }
{
    let mut cells = [0; CELL_WORDS];
    for i in 0..count {
        let at = removed[i];
        if at == partner[i] {
            let cell = at as usize;
            put_cell(&mut cells, CellNo(cell));
        }
    }
    cells
}

// The witness: its grants by their cells, and w.
#[repr(C)]
#[derive(Clone, Copy)]
pub struct Witness {
    pub cells: [u64; CELL_WORDS],
    pub count: usize,
}

// The witness of the sheet that the rows show: the grants taken from its kernel and all its singles.
#[tactic(auto, unfolding(spec::specs::Limits::user_limit, cell_rows::specs::Rows::row_words))]
pub fn witness_of<'a>(
    rows: &'a [u64; CELL_WORDS],
    columns: &'a [u64; PLACE_WORDS],
    kernel: &'a [u64; CELL_WORDS],
    singles: [u64; CELL_WORDS],
    users: usize,
) -> Witness
    requires { Columns rows.now columns.now × ReducedRows rows.now users kernel.now singles }
    ensures { (sheet : Sheet) → Shown rows.now users sheet
        → ReducedTo sheet rows.now kernel.now singles
        → Witnessed sheet rows.now result.cells result.count }
{
    let mut cells = singles;
    choose(&mut cells, rows, columns, kernel, users);
    let count = counted(&cells, users);
    Witness { cells, count }
}
