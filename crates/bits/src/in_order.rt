// The positions of a word, one after the other.
ghost use Rattle.std.specs.Prelude.{◌≡◌};
ghost use Rattle.std.specs.Iterator.{at_most};
ghost use Rattle.bits.specs.Positions.{PositionTaken};

use crate::whole::{lowest, without_lowest};

// The positions of a word from the lowest on: those that are left are the word's.
#[derive(Clone, Copy)]
pub struct WordPositions {
    pub left: u64,
}

impl Iterator for WordPositions {
    type Item = usize;

    ghost remaining = { λ at. at_most at.left };

    ghost next_gives = { λ old result new. PositionTaken old.left result new.left };

    // Takes the lowest.
    fn next(&mut self) -> Option<usize> {
        if self.left == 0 {
            return None;
        }
        let p = lowest(self.left);
        self.left = without_lowest(self.left);
        Some(p)
    }
}

// The positions of w.
pub fn positions(w: u64) -> WordPositions
    ensures { result.left ≡ w }
{
    WordPositions { left: w }
}
