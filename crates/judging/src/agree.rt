// Whether the counts of a book agree with its lines.
ghost use Rattle.std.specs.Prelude.{◌≡◌, ◌&&◌, eqb};
ghost use Rattle.spec.specs.Refusal.{bound_agrees};
ghost use Rattle.standing.specs.StandingCases.{standing_case};

use book_lines::Counts;
use standing::Standing;

// Whether the bound agrees with the state, the roles and the witness lines.
fn bound_agrees(standing: Standing, bound: usize, roles: usize, lines: usize) -> bool
    ensures { result ≡ bound_agrees (standing_case standing) bound roles lines }
{
    match standing {
        Standing::Witnessed => bound == roles && roles == lines,
        Standing::Searched => bound == roles && lines < roles,
        Standing::Open => bound == lines && lines < roles,
    }
}

// Whether the counts agree with so many roles and witness lines.
pub fn counts_agree(counts: Counts, roles: usize, lines: usize) -> bool
    ensures { result ≡ (eqb counts.roles roles && bound_agrees (standing_case counts.standing) counts.bound
        roles lines) }
{
    counts.roles == roles && bound_agrees(counts.standing, counts.bound, roles, lines)
}
