// What a reduction finds of a sheet: all of it follows from the sheet's cells, and is kept so that no later call finds
// it again.
ghost use Rattle.std.specs.Prelude.{◌≡◌, ◌≤◌, length};
ghost use Rattle.spec.specs.Limits.{grant_limit};
ghost use Rattle.spec.specs.Sheet.{Sheet, grants};
ghost use Rattle.cell_rows.specs.CellPlaces.{Shown, Shows};
ghost use Rattle.preparing.specs.Prepared.{PreparedFor};
ghost use Rattle.preparing.specs.NothingPrepared.{nothing_prepared};

use cells::Kernel;
use cover::Placement;
use numbers::{CELL_WORDS, GRANT_LIMIT, TABLE_WORDS};
use reduction::Reduced;
use witness::Witness;

// What was removed, the kernel in order, the witness, the first cover and the fit table.
#[repr(C)]
#[derive(Clone, Copy)]
pub struct Prepared {
    pub reduced: Reduced,
    pub kernel: Kernel,
    pub witness: Witness,
    pub first: Placement,
    pub table: [u64; TABLE_WORDS],
}

impl Prepared {
    // Nothing found yet: the parts of a session whose sheet is not reduced, or which has none.
    #[tactic(auto, unfolding(spec::specs::Limits::user_limit, spec::specs::Limits::grant_limit, cell_rows::specs::Rows::row_words, table::specs::TableWords::table_row))]
    pub fn none() -> Prepared
        ensures { result ≡ nothing_prepared }
    {
        let reduced = Reduced {
            left: [0; CELL_WORDS],
            removed: [0; GRANT_LIMIT],
            partner: [0; GRANT_LIMIT],
            count: 0,
            singles: 0,
        };
        Prepared {
            reduced,
            kernel: Kernel {
                cells: [0; GRANT_LIMIT],
                size: 0,
            },
            witness: Witness {
                cells: [0; CELL_WORDS],
                count: 0,
            },
            first: Placement {
                classes: [0; GRANT_LIMIT],
                used: 0,
            },
            table: [0; TABLE_WORDS],
        }
    }
}

// What there is to find of a sheet, from the cells of its users.
pub fn prepare(rows: &[u64; CELL_WORDS], users: usize) -> Prepared
    requires { Shows rows.now users }
    ensures { (sheet : Sheet) → Shown rows.now users sheet → length (grants sheet) ≤ grant_limit
        → PreparedFor sheet rows.now users result }
{
    let columns = fit::columns_of(rows);
    let reduced = reduction::reduce(rows, &columns, users);
    let kernel = cells::listed(&reduced.left, users);
    let singles = witness::single_cells(&reduced.removed, &reduced.partner, reduced.count);
    let witness = witness::witness_of(rows, &columns, &reduced.left, singles, users);
    let first = cover::first_best(rows, kernel);
    let table = table::fit_table(rows, kernel);
    Prepared {
        reduced,
        kernel,
        witness,
        first,
        table,
    }
}
