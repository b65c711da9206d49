// What the user lines of a sheet say, taken together.
ghost use Rattle.std.specs.Prelude.{◌≡◌, suc, ◌+◌, ◌≤◌, ◌<◌, ◌^◌, length, drop};
ghost use Rattle.spec.specs.Text.{lines_of};
ghost use Rattle.refusal.specs.Body.{no_lines, add_read_line, body_of};

use crate::fields::Cells;
use crate::line::read_line;
use spelling::name_length;

// How many lines there are, whether each name is as long as a name, whether each line has as many fields as asked
// after its name, whether each of those is `0` or `1`, and how many are `1`.
#[derive(Clone, Copy)]
pub struct Body {
    pub users: usize,
    pub names: bool,
    pub even: bool,
    pub bits: bool,
    pub ones: usize,
}

impl Body {
    // No line.
    pub fn none() -> Self
        ensures { result ≡ no_lines }
    {
        Self {
            users: 0,
            names: true,
            even: true,
            bits: true,
            ones: 0,
        }
    }

    // These lines and one more, of which it is known whether its name is as long as a name, and what its other fields
    // say.
    pub fn with(self, width: usize, named: bool, cells: Cells) -> Self
        requires { (self.users < 2 ^ 63) × (self.ones + cells.ones < 2 ^ 64) }
        ensures { result ≡ add_read_line width self named cells }
    {
        Self {
            users: self.users + 1,
            names: self.names && named,
            even: self.even && cells.count == width,
            bits: self.bits && cells.bits,
            ones: self.ones + cells.ones,
        }
    }
}

// What the lines from `at` on say, each with `width` fields after its name where it is even.
pub fn read_body(s: &[u8], at: usize, width: usize) -> Body
    requires { at ≤ suc (length s.now) }
    ensures { result ≡ body_of width (lines_of (drop at s.now)) }
{
    let mut body = Body::none();
    let mut from = at;
    // A line says where the next one starts.
    while from < s.len() {
        let line = read_line(s, from);
        let to = line.to;
        body = body.with(width, name_length(&s[from..to]), line.cells);
        from = line.next;
    }
    body
}
