// Reading a sheet: the cause for which it is refused, or its layout and its rows.
ghost use Rattle.std.specs.Prelude.{◌≡◌, ◌≢◌, IfOk};
ghost use Rattle.spec.specs.Sheet.{sheet_of};
ghost use Rattle.spec.specs.Refusal.{refusal};
ghost use Rattle.numbers.specs.Refusal.{number_of, number_said};
ghost use Rattle.names.specs.LaidOut.{LaidOut};
ghost use Rattle.cells.specs.RowsRead.{RowsRead};
ghost use Rattle.sheet.specs.OnlyNames.{OnlyNames};

use crate::kept::{are_apart, read_lines};
use cell_rows::no_rows;
use names::Layout;
use numbers::{CELL_WORDS, Refusal, USER_LIMIT};
use places::Places;
use refusal::judge;

// What an accepted sheet's bytes were read as.
#[derive(Clone, Copy)]
pub struct SheetRead {
    pub layout: Layout,
    pub rows: [u64; CELL_WORDS],
}

// The layout of the sheet and its rows, or the cause of the lowest number of 1 to 9 that applies. A sheet that keeps
// all rules is read in one pass, and only one that does not is judged cause by cause.
pub fn read(s: &[u8]) -> Result<SheetRead, Refusal>
    ensures number_value { number_said result ≡ refusal s.now }
    ensures laid_out { IfOk result (λ read. LaidOut s.now read.layout × RowsRead read.rows (sheet_of s.now)
        × OnlyNames read.layout) }
{
    let mut permission_places = [0; USER_LIMIT];
    let mut user_places = [0; USER_LIMIT];
    let mut rows = no_rows();
    let Some(counts) = read_lines(s, &mut permission_places, &mut user_places, &mut rows) else {
        return Err(cause_of(s));
    };
    let users = counts.users;
    let permissions = counts.permissions;
    if !are_apart(s, &user_places[..users], &permission_places[..permissions]) {
        return Err(cause_of(s));
    }
    Ok(SheetRead {
        layout: Layout {
            users,
            permissions,
            grants: counts.grants,
            user_places: Places { at: user_places },
            permission_places: Places {
                at: permission_places,
            },
        },
        rows,
    })
}

// The cause for which a sheet is refused.
fn cause_of(s: &[u8]) -> Refusal
    requires { refusal s.now ≢ 0 }
    ensures { number_of result ≡ refusal s.now }
{
    judge(s).unwrap_err()
}
