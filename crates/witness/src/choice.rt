// The remaining grant with the fewest partners, and what is left once it is taken.
ghost use Rattle.std.specs.Prelude.{◌≡◌, List, ℕ, ◌+◌, ◌*◌, ◌≤◌, ◌<◌};
ghost use Rattle.spec.specs.Limits.{user_limit};
ghost use Rattle.bits.specs.Bit.{word_bits};
ghost use Rattle.cell_rows.specs.Rows.{row_words};
ghost use Rattle.cell_rows.specs.CellPlaces.{cell_words, cell_limit, cells_of};
ghost use Rattle.witness.specs.Counts.{Counted};
ghost use Rattle.witness.specs.WitnessWalk.{Walked};
ghost use Rattle.witness.specs.WitnessChoice.{better_of, Fewest};
ghost use Rattle.cells.specs.MadeCells.{MadeCells};
ghost use Rattle.witness.specs.WitnessCells.{left_over};

use bits::WORD_BITS;
use fit::fitting;
use numbers::{CELL_LIMIT, CELL_WORDS, CellNo, ROW_WORDS};

// A grant by its cell, and how many remaining grants fit it, itself among them.
#[derive(Clone, Copy)]
pub struct Choice {
    pub cell: CellNo,
    pub partners: usize,
}

// The choice so far, unless the grant at a cell has fewer partners.
fn better(best: Option<Choice>, cell: CellNo, count: u16) -> Choice
    ensures { result ≡ better_of best cell.0 count }
{
    let partners = count as usize;
    match best {
        Some(best) if best.partners <= partners => best,
        _ => Choice { cell, partners },
    }
}

// The choice so far, unless a grant of word i has fewer partners, by the counts of the grants that fit.
#[tactic(auto, unfolding(spec::specs::Limits::user_limit, cell_rows::specs::Rows::row_words))]
fn better_in_word<'a>(
    best: Option<Choice>,
    left: &'a [u64; CELL_WORDS],
    counts: &'a [u16; CELL_LIMIT],
    i: usize,
) -> Option<Choice>
    requires { i < cell_words }
    ensures { (rows : List ℕ) (users : ℕ) → users ≤ user_limit → i < users * row_words
        → Counted rows left.now users counts.now
        → Walked rows left.now users best (i * word_bits) → Walked rows left.now users result
        ((i + 1) * word_bits) }
{
    let from = i * WORD_BITS;
    let mut it = best;
    for p in bits::positions(left[i]) {
        let n = from + p;
        it = Some(better(it, CellNo(n), counts[n]));
    }
    it
}

// The remaining grant with the fewest partners, the lowest on a tie, if any grant remains.
#[tactic(auto, unfolding(spec::specs::Limits::user_limit, cell_rows::specs::Rows::row_words))]
pub fn fewest<'a>(
    left: &'a [u64; CELL_WORDS],
    counts: &'a [u16; CELL_LIMIT],
    users: usize,
) -> Option<Choice>
    requires { users ≤ user_limit }
    ensures { (rows : List ℕ) → Counted rows left.now users counts.now
        → Fewest rows left.now users result }
{
    let mut best = None;
    for i in 0..users * ROW_WORDS {
        best = better_in_word(best, left, counts, i);
    }
    best
}

// What is left for further choice once the grant at a cell is taken: the grants that do not fit it.
#[tactic(auto, unfolding(spec::specs::Limits::user_limit, cell_rows::specs::Rows::row_words))]
pub fn dropped<'a>(
    rows: &'a [u64; CELL_WORDS],
    left: &'a [u64; CELL_WORDS],
    users: usize,
    it: CellNo,
) -> [u64; CELL_WORDS]
    requires { (users ≤ user_limit) × (it.0 < cell_limit) }
    ensures { MadeCells (left_over rows.now left.now it.0) (cells_of users) result }
{
    let mut words = [0; CELL_WORDS];
    for i in 0..users * ROW_WORDS {
        words[i] = bits::apart(left[i], fitting(rows, it, i));
    }
    words
}
