// The permissions as the sheet's own first line has them.
ghost use Rattle.std.specs.Prelude.{◌≡◌};
ghost use Rattle.std.proofs.Math.Bool.{So};
ghost use Rattle.spec.specs.Sheet.{sheet_of};
ghost use Rattle.spec.specs.Refusal.{accepted};
ghost use Rattle.book_lines.specs.Lines.{permissions_line};

use steps::part_end;

// The bytes of `user`, the first field of a sheet.
const USER_BYTES: usize = 4;

// The first line of an accepted sheet from behind its `user` on: the permissions, a comma before each, and the line
// feed. A writing has it in block 2 behind `role`.
pub fn permissions_line(sheet: &[u8]) -> &[u8]
    requires { So (accepted sheet.now) }
    ensures { result.now ≡ permissions_line (sheet_of sheet.now) }
{
    let Some(end) = part_end(sheet, USER_BYTES, b'\n') else {
        return &sheet[..0];
    };
    let next_line = end + 1;
    &sheet[USER_BYTES..next_line]
}
