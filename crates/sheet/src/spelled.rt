// Names of a sheet: fields, as the reader finds them, that are names.
ghost use Rattle.std.specs.Prelude.{◌≡◌, ◌≤◌, length};
ghost use Rattle.sheet.specs.Spelled.{is_name, name_read};

use reader::Cursor;
use spelling::{Kind, all_of, name_length};

// Where the name that starts at a place ends, if the field there is one.
pub fn read_name(s: &[u8], at: usize) -> Option<usize>
    requires { at ≤ length s.now }
    ensures { result ≡ name_read s.now at }
{
    let field = Cursor { at }.field(s);
    let to = field.to;
    if is_name(&s[at..to]) { Some(to) } else { None }
}

// Whether a field is a name: as long as one, and of the bytes of names.
fn is_name(field: &[u8]) -> bool
    ensures { result ≡ is_name field.now }
{
    name_length(field) && all_of(field, Kind::Name)
}
