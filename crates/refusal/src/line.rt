// Reading one line.
ghost use Rattle.std.specs.Prelude.{◌≤◌, length};
ghost use Rattle.refusal.specs.ReadLine.{ReadLine};

use crate::fields::Cells;
use reader::Cursor;

// A line that was read: where its first field ends, what the other fields say, and where the next line starts.
#[derive(Clone, Copy)]
pub struct LineRead {
    pub to: usize,
    pub cells: Cells,
    pub next: usize,
}

// The line that starts at `at`.
pub fn read_line(s: &[u8], at: usize) -> LineRead
    requires { at ≤ length s.now }
    ensures { ReadLine s.now at result }
{
    let mut field = Cursor { at }.field(s);
    let to = field.to;
    let mut cells = Cells::none();
    // A field says whether it is the last, and where the next one starts.
    while !field.last {
        field = field.next.field(s);
        cells = cells.with(&s[field.from..field.to]);
    }
    LineRead {
        to,
        cells,
        next: field.next.at,
    }
}
