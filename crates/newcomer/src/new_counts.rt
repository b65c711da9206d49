// What block 1 of the new book says.
ghost use Rattle.std.specs.Prelude.{◌≡◌};
ghost use Rattle.newcomer.specs.NewCounts.{new_counts};

use book_lines::Counts;
use standing::Standing;

// With no new role, what the given book's block 1 says; with one, the state is `open` and the bound is the witness
// count.
pub fn counts_with(counts: Counts, roles: usize, lines: usize) -> Counts
    ensures { result ≡ new_counts counts roles lines }
{
    if roles == counts.roles {
        return counts;
    }
    Counts {
        roles,
        bound: lines,
        standing: Standing::Open,
    }
}
