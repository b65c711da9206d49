// Block 4: the witness.
ghost use Rattle.std.specs.Prelude.{◌≡◌, ◌≤◌, length};
ghost use Rattle.spec.specs.Sheet.{sheet_of};
ghost use Rattle.names.specs.NamesAt.{Inside, Apart, all_names};
ghost use Rattle.names.specs.LaidOut.{LaidOut, UsersAt, PermissionsAt};
ghost use Rattle.read_fields.specs.NameSteps.{NameReads};
ghost use Rattle.read_fields.specs.WitnessList.{no_witness};
ghost use Rattle.read_fields.specs.WitnessLineSteps.{WitnessReads};
ghost use Rattle.read_fields.specs.WitnessSteps.{WitnessLinesRead, WitnessPartReads};

use names::{Layout, find_from};
use numbers::{PermissionNo, ROLE_LIMIT, UserNo};
use steps::{expect, part_end};

// The grant that a witness line names.
#[derive(Clone, Copy)]
pub struct WitnessLine {
    pub user: UserNo,
    pub permission: PermissionNo,
}

// The witness: how many lines it has, and the grants of as many of the first as there can be roles.
#[derive(Clone, Copy)]
pub struct Witness {
    pub lines: usize,
    pub first: [WitnessLine; ROLE_LIMIT],
}

impl Witness {
    // No line.
    pub fn none() -> Self
        ensures { result ≡ no_witness }
    {
        let line = WitnessLine {
            user: UserNo(0),
            permission: PermissionNo(0),
        };
        Self {
            lines: 0,
            first: [line; ROLE_LIMIT],
        }
    }
}

// The number of the name that the byte `end` ends, among the names at these places of the sheet: the users' or the
// permissions'; and the place behind that byte. Those from number `first` on are looked at first.
fn name_field<'a, 'b>(
    book: &'a [u8],
    at: usize,
    end: u8,
    sheet: &'a [u8],
    places: &'b [u64],
    first: usize,
) -> Option<(usize, usize)>
    requires { (at ≤ length book.now) × Inside sheet.now places.now
        × Apart sheet.now places.now (length places.now) }
    ensures { NameReads (all_names sheet.now places.now) book.now at end result }
{
    let to = part_end(book, at, end)?;
    let i = find_from(sheet, places, first, &book[at..to])?;
    Some((i, to + 1))
}

// Reads a witness line: a user's name, a comma, a permission's name and a line feed; and where to go on. The users from
// number `first` on are looked at first.
fn witness_line<'a, 'b>(
    book: &'a [u8],
    at: usize,
    sheet: &'a [u8],
    users: &'b [u64],
    permissions: &'b [u64],
    first: UserNo,
) -> Option<(WitnessLine, usize)>
    requires { (at ≤ length book.now) × UsersAt sheet.now users.now
        × PermissionsAt sheet.now permissions.now }
    ensures { WitnessReads (sheet_of sheet.now) book.now at result }
{
    let (user, start) = name_field(book, at, b',', sheet, users, first.0)?;
    let (permission, next) = name_field(book, start, b'\n', sheet, permissions, 0)?;
    let line = WitnessLine {
        user: UserNo(user),
        permission: PermissionNo(permission),
    };
    Some((line, next))
}

// Reads witness lines up to the end of the book. The grants of a witness are mostly in order, so a user is looked for
// from the last one on.
fn witness_lines<'a, 'b>(
    book: &'a [u8],
    at: usize,
    sheet: &'a [u8],
    users: &'b [u64],
    permissions: &'b [u64],
) -> Option<Witness>
    requires { (at ≤ length book.now) × UsersAt sheet.now users.now
        × PermissionsAt sheet.now permissions.now }
    ensures { WitnessLinesRead (sheet_of sheet.now) book.now at result }
{
    let mut witness = Witness::none();
    let mut next = at;
    let mut last = UserNo(0);
    // Counted by hand: a line says where the next one starts.
    while next < book.len() {
        let (line, after) = witness_line(book, next, sheet, users, permissions, last)?;
        if witness.lines < ROLE_LIMIT {
            witness.first[witness.lines] = line;
        }
        witness.lines += 1;
        next = after;
        last = line.user;
    }
    Some(witness)
}

// Reads block 4, which ends the book.
pub fn read_witness<'a>(
    book: &'a [u8],
    at: usize,
    sheet: &'a [u8],
    layout: Layout,
) -> Option<Witness>
    requires { (at ≤ length book.now) × LaidOut sheet.now layout }
    ensures { WitnessPartReads (sheet_of sheet.now) book.now at result }
{
    let lines = expect(book, at, b"user,permission\n")?;
    let users = &layout.user_places.at[..layout.users];
    let permissions = &layout.permission_places.at[..layout.permissions];
    witness_lines(book, lines, sheet, users, permissions)
}
