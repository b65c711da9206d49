// Reading a text from front to back. What reading at a place answers is where to go on, or None where the text is not
// of the form there.
ghost use Rattle.std.specs.Prelude.{◌≤◌, length, [], ◌∷◌};
ghost use Rattle.steps.specs.Steps.{Expects};
ghost use Rattle.steps.specs.Ended.{PartEnd};

// Goes past the word, where the text has it at this place.
pub fn expect(text: &[u8], at: usize, word: &[u8]) -> Option<usize>
    requires { at ≤ length text.now }
    ensures { Expects text.now at word.now result }
{
    if text[at..].starts_with(word) {
        Some(at + word.len())
    } else {
        None
    }
}

// Goes past one byte, where the text has it at this place.
pub fn expect_byte(text: &[u8], at: usize, b: u8) -> Option<usize>
    requires { at ≤ length text.now }
    ensures { Expects text.now at (b ∷ []) result }
{
    if text.len() <= at {
        return None;
    }
    if text[at] != b {
        return None;
    }
    Some(at + 1)
}

// Where the part that starts at this place ends: before the first byte `end` from there on.
pub fn part_end(text: &[u8], at: usize, end: u8) -> Option<usize>
    requires { at ≤ length text.now }
    ensures { PartEnd text.now at end result }
{
    for i in at..text.len() {
        if text[i] == end {
            return Some(i);
        }
    }
    None
}
