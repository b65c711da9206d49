// Block 4: the witness, its lines in the order of a list of cells.
ghost use Rattle.std.specs.Prelude.{◌≤◌, map, length};
ghost use Rattle.spec.specs.Text.{text_of};
ghost use Rattle.spec.specs.Sheet.{sheet_of};
ghost use Rattle.spec.specs.Book.{witness_line, witness_block};
ghost use Rattle.cell_rows.specs.CellPlaces.{grant_of};
ghost use Rattle.names.specs.LaidOut.{UsersAt, PermissionsAt};
ghost use Rattle.book_lines.specs.RowsSaid.{CellsWithin};
ghost use Rattle.blocks.specs.WitnessText.{cell_lines};
ghost use Rattle.text.specs.Written.{Written};

use book_lines::put_pair_line;
use cells::{permission_of, user_of};
use names::{permission_name_in, user_name_in};
use numbers::CellNo;
use text::put_bytes;

// Writes the line of each cell.
fn put_cell_lines<'a, 'b>(
    out: &mut [u8],
    s: &'a [u8],
    users: &'b [u64],
    permissions: &'b [u64],
    cells: &'a [u16],
) -> usize
    requires users_at { UsersAt s.now users.now × PermissionsAt s.now permissions.now
        × CellsWithin cells.now (sheet_of s.now) }
    requires room { length (cell_lines (sheet_of s.now) cells.now) ≤ length out.old }
    ensures { Written (cell_lines (sheet_of s.now) cells.now) out.old
        out.new result }
{
    let mut at = 0;
    for number in cells {
        let cell = CellNo(usize::from(*number));
        let name = user_name_in(s, users, user_of(cell));
        let held = permission_name_in(s, permissions, permission_of(cell));
        at += put_pair_line(&mut out[at..], name, held);
    }
    at
}

// Writes block 4.
pub fn put_witness<'a, 'b>(
    out: &mut [u8],
    s: &'a [u8],
    users: &'b [u64],
    permissions: &'b [u64],
    cells: &'a [u16],
) -> usize
    requires users_at { UsersAt s.now users.now × PermissionsAt s.now permissions.now
        × CellsWithin cells.now (sheet_of s.now) }
    requires cells_in_bounds { length (text_of (witness_block (map (witness_line (sheet_of s.now)) (map grant_of cells.now))))
        ≤ length out.old }
    ensures { Written (text_of (witness_block (map (witness_line (sheet_of s.now))
        (map grant_of cells.now))))
        out.old out.new result }
{
    let lines = put_bytes(out, b"user,permission\n");
    lines + put_cell_lines(&mut out[lines..], s, users, permissions, cells)
}
