// The lines of a book.
ghost use Rattle.std.specs.Prelude.{◌+◌, ◌*◌, ◌≤◌, length};
ghost use Rattle.cell_rows.specs.Rows.{row_words, row_bits};
ghost use Rattle.text.specs.Written.{Written};
ghost use Rattle.book_lines.specs.Lines.{named_line, pair_line};

use cell_text::put_cells;
use text::{put_bytes, put_field};

// Writes a line of a name and so many cells of a row.
pub fn put_named_line<'a>(
    out: &mut [u8],
    name: &'a [u8],
    words: &'a [u64],
    row: usize,
    count: usize,
) -> usize
    requires count_le_row_bits { (count ≤ row_bits) × ((row + 1) * row_words ≤ length words.now) }
    requires count_in_bounds { length (named_line name.now words.now row count) ≤ length out.old }
    ensures { Written (named_line name.now words.now row count) out.old
        out.new result }
{
    let cells = put_bytes(out, name);
    let end = cells + put_cells(&mut out[cells..], words, row, count);
    out[end] = b'\n';
    end + 1
}

// Writes a line of two names.
pub fn put_pair_line<'a>(out: &mut [u8], user: &'a [u8], permission: &'a [u8]) -> usize
    requires { length (pair_line user.now permission.now) ≤ length out.old }
    ensures { Written (pair_line user.now permission.now) out.old
        out.new result }
{
    let field = put_bytes(out, user);
    let end = field + put_field(&mut out[field..], permission);
    out[end] = b'\n';
    end + 1
}
