// The whole book: four blocks, one empty line between each two. Each block is written where the one before ended,
// plus that empty line.
ghost use Rattle.std.specs.Prelude.{◌≤◌, length};
ghost use Rattle.spec.specs.Limits.{role_limit};
ghost use Rattle.spec.specs.Sheet.{sheet_of};
ghost use Rattle.names.specs.LaidOut.{LaidOut};
ghost use Rattle.book_lines.specs.RowsSaid.{CellsWithin};
ghost use Rattle.book_length.specs.BookRows.{rows_book};
ghost use Rattle.text.specs.Written.{Written};

use blocks::{put_roles, put_users, put_witness};
use book_lines::{Counts, put_counts};
use names::Layout;
use numbers::{CELL_WORDS, ROLE_WORDS};
use places::first_places;

// Writes the book at the front of the buffer, and answers how long it is.
pub fn write_book<'a>(
    out: &mut [u8],
    s: &'a [u8],
    layout: Layout,
    has: &'a [u64; CELL_WORDS],
    gives: &'a [u64; ROLE_WORDS],
    witness: &'a [u16],
    counts: Counts,
) -> usize
    requires laid_out { LaidOut s.now layout × (counts.roles ≤ role_limit)
        × CellsWithin witness.now (sheet_of s.now) }
    requires counts_in_bounds { length (rows_book s.now has.now gives.now witness.now counts) ≤ length out.old }
    ensures { Written (rows_book s.now has.now gives.now
        witness.now counts)
        out.old out.new result }
{
    let roles = counts.roles;
    let users = first_places(&layout.user_places.at, layout.users);
    let permissions = first_places(&layout.permission_places.at, layout.permissions);
    let first = put_counts(out, counts);
    out[first] = b'\n';
    let from = first + 1;
    let second = from + put_roles(&mut out[from..], s, permissions, gives, roles);
    out[second] = b'\n';
    let from = second + 1;
    let third = from + put_users(&mut out[from..], s, users, has, roles);
    out[third] = b'\n';
    let from = third + 1;
    from + put_witness(&mut out[from..], s, users, permissions, witness)
}
