// A set of numbers in two words: number p is position p of the low word, or position p - 64 of the high one.
ghost use Rattle.std.specs.Prelude.{◌≡◌, not, ◌&&◌, ◌||◌, ℕ, ◌<◌, eqb};
ghost use Rattle.spec.specs.Vocabulary.{every_below};
ghost use Rattle.bits.specs.Truth.{implies};
ghost use Rattle.marks.specs.Marks.{mark_limit, marked};

use bits::WORD_BITS;

#[repr(C)]
#[derive(Clone, Copy)]
pub struct Marks {
    pub low: u64,
    pub high: u64,
}

impl Marks {
    // Whether the other has every marked number.
    pub fn within(self, other: Marks) -> bool
        ensures { result ≡ every_below mark_limit (λ p. implies (marked self p) (marked other p)) }
    {
        if !bits::within(self.low, other.low) {
            return false;
        }
        bits::within(self.high, other.high)
    }

    // Whether p is marked.
    pub fn has(self, p: usize) -> bool
        requires { p < mark_limit }
        ensures { result ≡ marked self p }
    {
        if p < WORD_BITS {
            bits::has(self.low, p)
        } else {
            bits::has(self.high, p - WORD_BITS)
        }
    }

    // The marked numbers, and p.
    pub fn with(self, p: usize) -> Marks
        requires { p < mark_limit }
        ensures { (q : ℕ) → marked result q ≡ (marked self q || eqb q p) }
    {
        if p < WORD_BITS {
            Marks {
                low: bits::with(self.low, p),
                high: self.high,
            }
        } else {
            Marks {
                low: self.low,
                high: bits::with(self.high, p - WORD_BITS),
            }
        }
    }

    // The marked numbers but p.
    pub fn without(self, p: usize) -> Marks
        requires { p < mark_limit }
        ensures { (q : ℕ) → marked result q ≡ (marked self q && not (eqb q p)) }
    {
        if p < WORD_BITS {
            Marks {
                low: bits::without(self.low, p),
                high: self.high,
            }
        } else {
            Marks {
                low: self.low,
                high: bits::without(self.high, p - WORD_BITS),
            }
        }
    }
}
