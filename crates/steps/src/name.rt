// A name read in whatever case.
ghost use Rattle.std.specs.Prelude.{◌≤◌, length};
ghost use Rattle.steps.specs.Spelled.{ExpectsName};

use text::same_name;

// Goes past a name, where the text has it at this place, spelled in whatever case.
pub fn expect_name<'a>(text: &'a [u8], at: usize, name: &'a [u8]) -> Option<usize>
    requires { at ≤ length text.now }
    ensures { ExpectsName text.now at name.now result }
{
    let n = name.len();
    if text.len() - at < n {
        return None;
    }
    let end = at + n;
    if same_name(&text[at..end], name) {
        return Some(end);
    }
    None
}
