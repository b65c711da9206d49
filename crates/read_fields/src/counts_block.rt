// Block 1: the two counts and the state.
ghost use Rattle.std.specs.Prelude.{◌≤◌, length};
ghost use Rattle.read_fields.specs.CountSteps.{CountReads, StandingReads, CountsReads};

use book_lines::Counts;
use digits::count_of;
use standing::Standing;
use steps::{expect, expect_byte, part_end};

// What block 1 says, its counts as `count_of` reads them, and where to go on.
#[derive(Clone, Copy)]
pub struct CountsRead {
    pub counts: Counts,
    pub next: usize,
}

// The count at this place, and the place behind its comma.
fn count_field(book: &[u8], at: usize) -> Option<(usize, usize)>
    requires { at ≤ length book.now }
    ensures { CountReads book.now at result }
{
    let to = part_end(book, at, b',')?;
    let n = count_of(&book[at..to])?;
    Some((n, to + 1))
}

// The state at this place, and the place behind its line feed.
fn standing_field(book: &[u8], at: usize) -> Option<(Standing, usize)>
    requires { at ≤ length book.now }
    ensures { StandingReads book.now at result }
{
    for standing in [Standing::Witnessed, Standing::Searched, Standing::Open] {
        if let Some(end) = expect(book, at, standing.word()) {
            if let Some(next) = expect_byte(book, end, b'\n') {
                return Some((standing, next));
            }
        }
    }
    None
}

// Reads block 1 and the empty line behind it.
pub fn read_counts(book: &[u8]) -> Option<CountsRead>
    ensures { CountsReads book.now 0 result }
{
    let first = expect(book, 0, b"roles,bound,state\n")?;
    let (roles, second) = count_field(book, first)?;
    let (bound, third) = count_field(book, second)?;
    let (standing, end) = standing_field(book, third)?;
    let next = expect_byte(book, end, b'\n')?;
    Some(CountsRead {
        counts: Counts {
            roles,
            bound,
            standing,
        },
        next,
    })
}
