// Whether a newcomer's name is taken.
ghost use Rattle.std.specs.Prelude.{◌≡◌};
ghost use Rattle.spec.specs.Sheet.{sheet_of};
ghost use Rattle.spec.specs.Form.{known};
ghost use Rattle.names.specs.LaidOut.{LaidOut};
ghost use Rattle.longer.specs.OneLine.{added_name};

use names::{Layout, find_from};
use reader::Cursor;

// Whether a user of the sheet has the name that a line begins with.
pub fn name_taken<'a>(sheet: &'a [u8], layout: Layout, line: &'a [u8]) -> bool
    requires { LaidOut sheet.now layout }
    ensures { result ≡ known (sheet_of sheet.now).users (added_name line.now) }
{
    let to = Cursor { at: 0 }.field(line).to;
    let users = &layout.user_places.at[..layout.users];
    find_from(sheet, users, 0, &line[..to]).is_some()
}
