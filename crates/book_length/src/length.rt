// How long a book is, before anything of it is written: one sum of the bytes of its counts, its names, its cells and
// its headings, whatever the cells are, and of its witness.
ghost use Rattle.std.specs.Prelude.{◌≡◌, List, ℕ, ◌≤◌, length};
ghost use Rattle.spec.specs.Sheet.{sheet_of};
ghost use Rattle.cell_rows.specs.Rows.{row_bits};
ghost use Rattle.names.specs.LaidOut.{LaidOut, UsersAt, PermissionsAt};
ghost use Rattle.standing.specs.StandingCases.{standing_case};
ghost use Rattle.decimal.specs.Measured.{Measured, piece_most, line_most, block_most};
ghost use Rattle.book_lines.specs.CountsText.{standing_text, counts_text};
ghost use Rattle.book_lines.specs.RowsSaid.{CellsWithin};
ghost use Rattle.blocks.specs.WitnessText.{cell_lines};
ghost use Rattle.book_length.specs.BookRows.{rows_book};
ghost use Rattle.book_length.specs.NameBytes.{PlacesShort, bytes_at, role_name_bytes};

use book_lines::Counts;
use cells::{permission_of, user_of};
use decimal::decimal_length;
use names::{Layout, permission_name_in, user_name_in};
use numbers::CellNo;
use places::{first_places, from_of, to_of};
use standing::Standing;

// The first words of the three headings with their line feeds, and the three empty lines.
const HEADINGS: usize = 29;

// How long the state is as the last field of a line: its word, the comma and the line feed.
fn standing_length(standing: Standing) -> usize
    ensures { Measured (standing_text (standing_case standing)) piece_most result }
{
    standing.word().len() + 2
}

// How long block 1 is.
fn counts_length(counts: Counts) -> usize
    ensures { Measured (counts_text counts) line_most result }
{
    let roles = b"roles,bound,state\n".len() + decimal_length(counts.roles);
    let bound = b",".len() + decimal_length(counts.bound);
    let standing = counts.standing;
    roles + bound + standing_length(standing)
}

// How many bytes the names at these places have.
fn bytes_at(places: &[u64]) -> usize
    requires { PlacesShort places.now }
    ensures { result ≡ bytes_at places.now }
{
    let mut total = 0;
    for place in places {
        total += to_of(*place) - from_of(*place);
    }
    total
}

// How many bytes the names of so many roles have: two up to `R9`, three up to `R99`, and four from there on.
fn role_names_length(roles: usize) -> usize
    requires { roles ≤ row_bits }
    ensures { result ≡ role_name_bytes roles }
{
    if roles < 10 {
        return 2 * roles;
    }
    if roles < 100 {
        return 3 * roles - 9;
    }
    4 * roles - 108
}

// How long the witness lines of some cells are.
fn witness_length<'a, 'b>(
    s: &'a [u8],
    users: &'b [u64],
    permissions: &'b [u64],
    cells: &'a [u16],
) -> usize
    requires { UsersAt s.now users.now × PermissionsAt s.now permissions.now
        × CellsWithin cells.now (sheet_of s.now) }
    ensures { Measured (cell_lines (sheet_of s.now) cells.now) block_most result }
{
    let mut total = 0;
    for number in cells {
        let cell = CellNo(usize::from(*number));
        let name = user_name_in(s, users, user_of(cell));
        let held = permission_name_in(s, permissions, permission_of(cell));
        total += name.len() + held.len() + 2;
    }
    total
}

// How long the book is. A cell takes two bytes and ends with its line; a name of a heading stands behind a comma.
pub fn book_length<'a>(s: &'a [u8], layout: Layout, witness: &'a [u16], counts: Counts) -> usize
    requires { LaidOut s.now layout × (counts.roles ≤ row_bits) × CellsWithin witness.now (sheet_of s.now) }
    ensures { (has gives : List ℕ) → result ≡ length (rows_book s.now has gives witness.now
        counts) }
{
    let roles = counts.roles;
    let users = layout.users;
    let permissions = layout.permissions;
    let user_places = first_places(&layout.user_places.at, users);
    let permission_places = first_places(&layout.permission_places.at, permissions);
    let sheet_names = bytes_at(user_places) + bytes_at(permission_places);
    let names = sheet_names + 2 * role_names_length(roles);
    let lines = roles * (2 * permissions + 1) + users * (2 * roles + 1);
    let headings = HEADINGS + permissions + roles;
    let shown = witness_length(s, user_places, permission_places, witness);
    counts_length(counts) + headings + names + lines + shown
}
