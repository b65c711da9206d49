// One position of a word.
ghost use Rattle.std.specs.Prelude.{◌≡◌, not, ◌&&◌, ◌||◌, ℕ, ◌<◌, eqb};
ghost use Rattle.bits.specs.Bit.{bit, word_bits};

// Whether w has the position p.
pub fn has(w: u64, p: usize) -> bool
    requires { p < word_bits }
    ensures { result ≡ bit w p }
{
    (w >> p) % 2 == 1
}

// The positions of w, and p.
pub fn with(w: u64, p: usize) -> u64
    requires { p < word_bits }
    ensures { (q : ℕ) → bit result q ≡ (bit w q || eqb q p) }
{
    w | (1 << p)
}

// The positions of w but p.
pub fn without(w: u64, p: usize) -> u64
    requires { p < word_bits }
    ensures { (q : ℕ) → bit result q ≡ (bit w q && not (eqb q p)) }
{
    w & !(1 << p)
}
