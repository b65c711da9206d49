// Bytes compared, and what it means that two names are equal.
ghost use Rattle.std.specs.Prelude.{◌≡◌, eqb};
ghost use Rattle.spec.specs.Text.{same_bytes, lower, same_name};

use crate::bytes::{LETTERS, lower_byte};

// Whether two slices hold the same bytes.
pub fn same_bytes<'a>(a: &'a [u8], b: &'a [u8]) -> bool
    ensures { result ≡ same_bytes a.now b.now }
{
    a == b
}

// Whether two bytes are the same with `A-Z` read as `a-z`. Most bytes are the same as they are, or differ in more than
// a capital and its small letter do; only for others is a byte lowered.
fn same_letter(letter: u8, other: u8) -> bool
    ensures { result ≡ eqb (lower letter) (lower other) }
{
    letter == other
        || letter % LETTERS == other % LETTERS && lower_byte(letter) == lower_byte(other)
}

// Whether two names are equal. This is the one place that says what equal means: all that compares names asks it.
pub fn same_name<'a>(name: &'a [u8], other: &'a [u8]) -> bool
    ensures { result ≡ same_name name.now other.now }
{
    name.len() == other.len() && name.iter().zip(other).all(|(a, b)| same_letter(*a, *b))
}
