// The state that a search names and a book says, and the bound beside it.
ghost use Rattle.std.specs.Prelude.{◌≡◌, ◌≤◌, length};
ghost use Rattle.spec.specs.Roles.{standing_of, bound_of};
ghost use Rattle.spec.specs.Book.{standing_word};
ghost use Rattle.standing.specs.StandingCases.{standing_case};

#[derive(Clone, Copy, PartialEq, Eq)]
pub enum Standing {
    Witnessed,
    Searched,
    Open,
}

impl Standing {
    // The word that a book and an answer spell, of nine bytes at most.
    pub fn word(self) -> &'static [u8]
        ensures spelt { result.now ≡ standing_word (standing_case self) }
        ensures short { length result.now ≤ 9 }
    {
        match self {
            Standing::Witnessed => b"witnessed",
            Standing::Searched => b"searched",
            Standing::Open => b"open",
        }
    }
}

// The state of a book with so many roles, beside w witness grants.
pub fn standing_of(roles: usize, w: usize, finished: bool) -> Standing
    ensures { standing_case result ≡ standing_of roles w finished }
{
    if roles == w {
        return Standing::Witnessed;
    }
    if finished {
        return Standing::Searched;
    }
    Standing::Open
}

// The number that no role set falls below, as far as is shown.
pub fn bound_of(standing: Standing, roles: usize, w: usize) -> usize
    ensures { result ≡ bound_of (standing_case standing) roles w }
{
    match standing {
        Standing::Witnessed => roles,
        Standing::Searched => roles,
        Standing::Open => w,
    }
}
