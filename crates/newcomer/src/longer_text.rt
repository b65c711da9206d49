// The longer sheet as a text.
ghost use Rattle.std.specs.Prelude.{◌++◌, ◌≤◌, length};
ghost use Rattle.text.specs.Written.{Written};

use text::put_bytes;

// Puts a sheet and the line that is added to it at the front of a text, one after the other, and answers how long they
// are.
pub fn put_longer<'a>(text: &mut [u8], sheet: &'a [u8], line: &'a [u8]) -> usize
    requires { length (sheet.now ++ line.now) ≤ length text.old }
    ensures { Written (sheet.now ++ line.now) text.old text.new result }
{
    let at = put_bytes(text, sheet);
    at + put_bytes(&mut text[at..], line)
}
