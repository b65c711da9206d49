// The class in which the next grant is placed: the lowest that is not tried already and all of whose members fit it.
ghost use Rattle.std.specs.Prelude.{◌≡◌, ◌<◌, ◌≤◌};
ghost use Rattle.std.proofs.Math.Option.{get_or};
ghost use Rattle.spec.specs.Vocabulary.{lowest_below};
ghost use Rattle.marks.specs.Marks.{mark_limit};
ghost use Rattle.moves.specs.OpenTo.{class_end, open_to, row};

use crate::members;
use marks::Marks;
use numbers::{GrantNo, KERNEL_WORDS, TABLE_WORDS};

// One past the last class that the next grant may be placed in, 0 where there is none.
pub fn class_end(depth: usize, size: usize, used: usize, count: usize) -> usize
    ensures { result ≡ class_end depth size used count }
{
    if depth < size && used < count {
        (used + 1).min(count - 1)
    } else {
        0
    }
}

// The grants that fit one, as the fit table has them.
fn fitting(fit: &[u64; TABLE_WORDS], grant: GrantNo) -> Marks
    requires { grant.0 < mark_limit }
    ensures { result ≡ row fit.now grant.0 }
{
    let at = grant.0 * KERNEL_WORDS;
    Marks {
        low: fit[at],
        high: fit[at + 1],
    }
}

// The lowest class from `next` below `end` all of whose members fit the grant, or `end`.
pub fn class_for<'a>(
    members: &'a [u64; TABLE_WORDS],
    fit: &'a [u64; TABLE_WORDS],
    grant: GrantNo,
    next: usize,
    end: usize,
) -> usize
    requires end_le_mark_limit { end ≤ mark_limit }
    requires grant_lt_mark_limit { 0 < end → grant.0 < mark_limit }
    ensures { result ≡ get_or (lowest_below end (open_to fit.now members.now grant.0
        next)) end }
{
    if end <= next {
        return end;
    }
    let fits = fitting(fit, grant);
    for c in next..end {
        if members::of_class(members, c).within(fits) {
            return c;
        }
    }
    end
}
