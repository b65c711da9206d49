// The witness of a book as a list of cells.
ghost use Rattle.newcomer.specs.WitnessCells.{LinesKept, CellsOf};

use numbers::{ROLE_LIMIT, ROW_BITS};
use read_fields::Witness;

// The cells of the lines, in the order of the lines.
pub fn witness_cells(witness: Witness) -> [u16; ROLE_LIMIT]
    requires { LinesKept witness }
    ensures { CellsOf witness witness.lines result }
{
    let mut cells = [0; ROLE_LIMIT];
    for j in 0..witness.lines {
        let line = witness.first[j];
        cells[j] = (line.user.0 * ROW_BITS + line.permission.0) as u16;
    }
    cells
}
