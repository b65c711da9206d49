// A book into a buffer that may be too short for it.
ghost use Rattle.std.specs.Prelude.{◌≤◌};
ghost use Rattle.spec.specs.Limits.{role_limit};
ghost use Rattle.spec.specs.Sheet.{sheet_of};
ghost use Rattle.names.specs.LaidOut.{LaidOut};
ghost use Rattle.book_lines.specs.RowsSaid.{CellsWithin};
ghost use Rattle.book_length.specs.BookRows.{rows_book};
ghost use Rattle.book_lines.specs.Writing.{writing_said, Writes};

use crate::book::write_book;
use book_length::book_length;
use book_lines::Counts;
use names::Layout;
use numbers::{CELL_WORDS, ROLE_WORDS, Refusal};

// Writes the book where the buffer is long enough, and answers how long it is; else leaves every byte of the buffer.
pub fn write_if_room<'a>(
    out: &mut [u8],
    s: &'a [u8],
    layout: Layout,
    has: &'a [u64; CELL_WORDS],
    gives: &'a [u64; ROLE_WORDS],
    witness: &'a [u16],
    counts: Counts,
) -> Result<usize, Refusal>
    requires { LaidOut s.now layout × (counts.roles ≤ role_limit)
        × CellsWithin witness.now (sheet_of s.now) }
    ensures { Writes (rows_book s.now has.now gives.now witness.now
        counts)
        out.old (writing_said result) out.new }
{
    if out.len() < book_length(s, layout, witness, counts) {
        return Err(Refusal::BufferTooShort);
    }
    Ok(write_book(out, s, layout, has, gives, witness, counts))
}
