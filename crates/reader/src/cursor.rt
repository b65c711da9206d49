// A sheet is read from front to back, field after field and line after line: the loops keep a cursor by value, and a
// reader that holds the sheet and its place gives the field that stands there.
ghost use Rattle.std.specs.Prelude.{◌≡◌, not, ◌+◌, ◌≤◌, eqb, length, get_or, drop};
ghost use Rattle.spec.specs.Text.{comma};
ghost use Rattle.lists.specs.Span.{span};
ghost use Rattle.reader.specs.Fields.{field_read};
ghost use Rattle.text.specs.Line.{separator};

use text::{COMMA, is_separator, stands_at};

// A place in a text.
#[derive(Clone, Copy)]
pub struct Cursor {
    pub at: usize,
}

// A field that was read: where it starts and ends, whether it is the last of its line, and where to go on.
#[derive(Clone, Copy)]
pub struct FieldRead {
    pub from: usize,
    pub to: usize,
    pub last: bool,
    pub next: Cursor,
}

// A sheet's bytes, not copied, and the place from which they are read on.
#[derive(Clone, Copy)]
pub struct Reader<'a> {
    pub sheet: &'a [u8],
    pub at: usize,
}

impl Cursor {
    // The field at the cursor. A cursor past the end reads an empty field at the end of the text.
    pub fn field(self, s: &[u8]) -> FieldRead
        ensures { result ≡ field_read s.now self.at }
    {
        field_at(s, self.at)
    }
}

// The field at a place, by a reader that is set there. Its parameters are plain, so its callers hold no reader.
fn field_at(s: &[u8], at: usize) -> FieldRead
    ensures { result ≡ field_read s.now at }
{
    next_field(Reader { sheet: s, at })
}

// The field at the reader's place, and where the reader goes on. The work is `read_field`'s, which takes a plain slice.
fn next_field<'a>(reader: Reader<'a>) -> FieldRead
    ensures { result ≡ field_read reader.entry.sheet.now reader.entry.at }
{
    read_field(reader.sheet, reader.at)
}

// The field at a place of a text: the place, or the end where it is past that, up to the first separator.
fn read_field(s: &[u8], at: usize) -> FieldRead
    ensures { result ≡ field_read s.now at }
{
    let from = at.min(s.len());
    let to = field_end(s, from);
    FieldRead {
        from,
        to,
        last: ends_line(s, to),
        next: Cursor { at: to + 1 },
    }
}

// Where the field that starts at `at` ends.
fn field_end(s: &[u8], at: usize) -> usize
    requires { at ≤ length s.now }
    ensures { result ≡ at + span separator (drop at s.now) }
{
    for i in at..s.len() {
        if is_separator(s[i]) {
            return i;
        }
    }
    s.len()
}

// Whether a field that ends at `to` is the last of its line: no comma stands there.
fn ends_line(s: &[u8], to: usize) -> bool
    ensures { result ≡ not (eqb (get_or s.now to 0) comma) }
{
    !stands_at(s, to, COMMA)
}
