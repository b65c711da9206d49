// A word as a whole.
ghost use Rattle.std.specs.Prelude.{◌≡◌, not, ◌&&◌, ℕ, ◌<◌, ◌≤◌, ltb};
ghost use Rattle.spec.specs.Vocabulary.{every_below};
ghost use Rattle.bits.specs.Truth.{implies};
ghost use Rattle.bits.specs.Counting.{count_below, Lowest, NextFrom};
ghost use Rattle.bits.specs.Bit.{bit, word_bits};
ghost use Rattle.bits.specs.Word.{LowestDropped};

use crate::WORD_BITS;

// How many positions w has.
pub fn count(w: u64) -> usize
    ensures { result ≡ count_below word_bits (bit w) }
{
    u64::count_ones(w) as usize
}

// The lowest position of w, which has one.
pub fn lowest(w: u64) -> usize
    requires { 0 < w }
    ensures { Lowest word_bits (bit w) result }
{
    u64::trailing_zeros(w) as usize
}

// The lowest position of w from a place on, else the end of the word.
pub fn lowest_from(w: u64, from: usize) -> usize
    requires { from < word_bits }
    ensures { NextFrom (bit w) from word_bits result }
{
    let rest = w >> from;
    if rest == 0 {
        return WORD_BITS;
    }
    from + lowest(rest)
}

// The positions of w but the lowest. The result is the lesser number, so a loop that goes on with it ends.
pub fn without_lowest(w: u64) -> u64
    requires { 0 < w }
    ensures { LowestDropped w result }
{
    w & (w - 1)
}

// The positions below n.
pub fn full(n: usize) -> u64
    requires { n ≤ word_bits }
    ensures { (q : ℕ) → bit result q ≡ ltb q n }
{
    if n == WORD_BITS { !0 } else { (1 << n) - 1 }
}

// Whether b has every position of a.
pub fn within(a: u64, b: u64) -> bool
    ensures { result ≡ every_below word_bits (λ p. implies (bit a p) (bit b p)) }
{
    a & b == a
}

// The positions of w that others has not. The result is no greater number.
pub fn apart(w: u64, others: u64) -> u64
    ensures { (result ≤ w) × ((q : ℕ) → bit result q ≡ (bit w q && not (bit others q))) }
{
    w & !others
}
