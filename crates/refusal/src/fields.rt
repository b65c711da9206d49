// What the fields after the first of a line say, taken together.
ghost use Rattle.std.specs.Prelude.{◌≡◌, ◌&&◌, ◌≤◌, ◌<◌, ◌^◌};
ghost use Rattle.spec.specs.Sheet.{is_one, is_bit};
ghost use Rattle.refusal.specs.Cells.{no_cells, add_cell};

use spelling::name_length;
use text::same_bytes;

// How many fields there are, whether each is as long as a name, whether each is `0` or `1`, and how many are `1`.
#[derive(Clone, Copy)]
pub struct Cells {
    pub count: usize,
    pub names: bool,
    pub bits: bool,
    pub ones: usize,
}

impl Cells {
    // No field.
    pub fn none() -> Self
        ensures { result ≡ no_cells }
    {
        Self {
            count: 0,
            names: true,
            bits: true,
            ones: 0,
        }
    }

    // These fields and one more.
    #[tactic(auto, using(crate::specs::Laws::Cells::one_if_small, crate::specs::Laws::Cells::one_if_from))]
    pub fn with(self, field: &[u8]) -> Self
        requires { (self.count < 2 ^ 63) × (self.ones ≤ self.count) }
        ensures { result ≡ add_cell self field.now }
    {
        Self {
            count: self.count + 1,
            names: self.names && name_length(field),
            bits: self.bits && is_bit(field),
            ones: self.ones + usize::from(is_one(field)),
        }
    }
}

// Whether a field says yes.
pub fn is_one(field: &[u8]) -> bool
    ensures { result ≡ is_one field.now }
{
    same_bytes(field, b"1")
}

// Whether a field is `0` or `1`.
fn is_bit(field: &[u8]) -> bool
    ensures { result ≡ is_bit field.now }
{
    same_bytes(field, b"0") || is_one(field)
}
