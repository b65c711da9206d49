// The counts where a search stands: they are in a search's answer and in the book.
ghost use Rattle.std.specs.Prelude.{◌+◌, ◌≤◌};
ghost use Rattle.spec.specs.Limits.{permission_limit};
ghost use Rattle.answers.specs.CountsFrom.{CountsFrom};

use book_lines::Counts;

// Roles, bound and state, from the classes of the best placement, the singles, the witness's count and whether the
// search is finished.
pub fn counts_at(classes: usize, singles: usize, w: usize, finished: bool) -> Counts
    requires { classes + singles ≤ permission_limit }
    ensures { CountsFrom (classes + singles) w finished result }
{
    let roles = classes + singles;
    let standing = standing::standing_of(roles, w, finished);
    Counts {
        roles,
        bound: standing::bound_of(standing, roles, w),
        standing,
    }
}
