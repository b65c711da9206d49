// What the bytes of a text are: of a sheet, of a name, the word `user`; and how many a name has.
ghost use Rattle.std.specs.Prelude.{◌≡◌};
ghost use Rattle.spec.specs.Vocabulary.{all};
ghost use Rattle.spec.specs.Text.{ascii, same_bytes, between};
ghost use Rattle.spec.specs.Refusal.{has_name_length};
ghost use Rattle.spelling.specs.Kinds.{byte_of};

use numbers::NAME_LIMIT;
use text::{is_allowed, is_name_byte, same_bytes};

// A kind of bytes: those that a sheet may have, or those of names.
#[derive(Clone, Copy)]
pub enum Kind {
    Sheet,
    Name,
}

// Whether a byte is of a kind.
fn is_of(b: u8, kind: Kind) -> bool
    ensures { result ≡ byte_of kind b }
{
    match kind {
        Kind::Sheet => is_allowed(b),
        Kind::Name => is_name_byte(b),
    }
}

// Whether every byte is of a kind.
pub fn all_of(s: &[u8], kind: Kind) -> bool
    ensures { result ≡ all (byte_of kind) s.now }
{
    s.iter().all(|b| is_of(*b, kind))
}

// Whether a field is the word that a sheet starts with.
pub fn is_user(field: &[u8]) -> bool
    ensures { result ≡ same_bytes field.now (ascii "user") }
{
    same_bytes(field, b"user")
}

// Whether a field is as long as a name.
#[tactic(auto, unfolding(spec::specs::Refusal::has_name_length))]
pub fn name_length(field: &[u8]) -> bool
    ensures { result ≡ has_name_length field.now }
{
    is_within(1, NAME_LIMIT, field.len())
}

// Whether n is at least low and at most high.
pub fn is_within(low: usize, high: usize, n: usize) -> bool
    ensures { result ≡ between low high n }
{
    (low..=high).contains(&n)
}
