// Whether a witness stands: every grant is held, and no two on different lines fit.
ghost use Rattle.std.specs.Prelude.{◌≡◌, ◌+◌, ◌≤◌, ◌<◌};
ghost use Rattle.bits.specs.Bit.{word_bits};
ghost use Rattle.cell_rows.specs.Rows.{row_bits};
ghost use Rattle.judging.specs.WitnessWords.{LineWithin, LinesWithin, line_held, lines_stand};
ghost use Rattle.judging.specs.NotedLines.{OwnersWithin, NotedWithin, some_owner, fits_noted};

use bits::WORD_BITS;
use cell_rows::mark;
use cell_text::cell_at;
use numbers::{PermissionNo, ROW_BITS, ROW_WORDS};
use read_fields::{Witness, WitnessLine};

// Whether the grant of a line is held.
fn held(rows: &[u64], line: WitnessLine) -> bool
    requires { LineWithin rows.now line }
    ensures { result ≡ line_held rows.now line }
{
    cell_at(rows, line.user.0, line.permission.0)
}

// Whether the user noted for one of the permissions at the positions of some holds a permission. `first` is the
// permission of position 0.
fn an_owner_holds(
    rows: &[u64],
    owners: &[usize; ROW_BITS],
    first: PermissionNo,
    some: u64,
    permission: PermissionNo,
) -> bool
    requires { (first.0 + word_bits ≤ row_bits) × (permission.0 < row_bits)
        × OwnersWithin rows.now owners.now first.0 some }
    ensures { result ≡ some_owner rows.now owners.now first.0 permission.0 some }
{
    for p in bits::positions(some) {
        let owner = owners[first.0 + p];
        if cell_at(rows, owner, permission.0) {
            return true;
        }
    }
    false
}

// Whether the grant of a line fits that of a line noted: the user holds a permission that was taken, and its owner
// holds the permission of the line.
fn fits_a_noted(
    rows: &[u64],
    taken: &[u64; ROW_WORDS],
    owners: &[usize; ROW_BITS],
    line: WitnessLine,
) -> bool
    requires { LineWithin rows.now line × NotedWithin rows.now taken.now owners.now }
    ensures { result ≡ fits_noted rows.now taken.now owners.now line }
{
    for k in 0..ROW_WORDS {
        let first = PermissionNo(k * WORD_BITS);
        let some = rows[line.user.0 * ROW_WORDS + k] & taken[k];
        if an_owner_holds(rows, owners, first, some, line.permission) {
            return true;
        }
    }
    false
}

// Whether the witness stands in these rows. No two lines that stood have one permission, so a row of words has the
// permissions of the lines so far, and `owners` the user of the line of each.
pub fn witness_stands(rows: &[u64], witness: Witness) -> bool
    requires { LinesWithin rows.now witness }
    ensures { result ≡ lines_stand rows.now witness }
{
    let mut taken = [0; ROW_WORDS];
    let mut owners = [0; ROW_BITS];
    for j in 0..witness.lines {
        let line = witness.first[j];
        if !held(rows, line) {
            return false;
        }
        if fits_a_noted(rows, &taken, &owners, line) {
            return false;
        }
        let permission = line.permission.0;
        mark(&mut taken, permission);
        owners[permission] = line.user.0;
    }
    true
}
