// Prints the book of the paper's sheet, and the book of a sheet without grants.

#![tactic(auto)]

ghost use Rattle.std.specs.Prelude.{◌≤◌};
ghost use Rattle.spec.specs.Limits.{role_limit};
ghost use Rattle.spec.specs.Sheet.{sheet_of};
ghost use Rattle.book_lines.specs.RowsSaid.{CellsWithin};

use book_lines::Counts;
use numbers::{CELL_WORDS, ROLE_WORDS, ROW_BITS, ROW_WORDS};
use standing::Standing;

// The descriptor of standard output.
const STANDARD_OUTPUT: i32 = 1;

// Prints the book of a sheet, from its two matrices, the cells of its witness and its counts.
fn print<'a>(
    s: &'a [u8],
    has: &'a [u64; CELL_WORDS],
    gives: &'a [u64; ROLE_WORDS],
    witness: &'a [u16],
    counts: Counts,
)
    requires { (counts.roles ≤ role_limit) × CellsWithin witness.now (sheet_of s.now) }
{
    let Ok(read) = sheet::read(s) else {
        return;
    };
    let layout = read.layout;
    let mut out = [0u8; 1024];
    let Ok(n) = book::write_if_room(&mut out, s, layout, has, gives, witness, counts) else {
        return;
    };
    io::write_all(STANDARD_OUTPUT, &out[..n]);
}

// The paper's sheet: ann and cy share `rec` and `id`, bo and cy share `id` and `map`. Its witness is the cells of ann
// and `rec` and of bo and `map`.
fn worked() {
    let s = *b"user,rec,id,map\nann,1,1,0\nbo,0,1,1\ncy,1,1,1\n";
    let mut has = [0; CELL_WORDS];
    has[0] = 0b01;
    has[ROW_WORDS] = 0b10;
    has[2 * ROW_WORDS] = 0b11;
    let mut gives = [0; ROLE_WORDS];
    gives[0] = 0b011;
    gives[ROW_WORDS] = 0b110;
    let witness = [0, ROW_BITS as u16 + 2];
    let counts = Counts {
        roles: 2,
        bound: 2,
        standing: Standing::Witnessed,
    };
    print(&s, &has, &gives, &witness, counts);
}

// A sheet without grants has no role.
fn without_grants() {
    let s = *b"user,rec,id\nann,0,0\nbo,0,0\n";
    let has = [0; CELL_WORDS];
    let gives = [0; ROLE_WORDS];
    let witness = [0; 0];
    let counts = Counts {
        roles: 0,
        bound: 0,
        standing: Standing::Witnessed,
    };
    print(&s, &has, &gives, &witness, counts);
}

fn main() {
    worked();
    io::write_all(STANDARD_OUTPUT, b"----\n");
    without_grants();
}
