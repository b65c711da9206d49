// What the calls of a session answer: a result comes with the number 0, a refusal with its own number and counts 0.
ghost use Rattle.std.specs.Prelude.{◌≡◌};
ghost use Rattle.std.proofs.Math.Option.{some};
ghost use Rattle.spec.specs.Calls.{load_refused, reduce_refused, search_refused, write_refused};
ghost use Rattle.standing.specs.StandingCases.{standing_case};
ghost use Rattle.book_lines.specs.Writing.{writing_said};
ghost use Rattle.answers.specs.Said.{load_said, reduce_said, search_said, write_said};

use book_lines::Counts;
use moves::Kinds;
use numbers::Refusal;
use standing::Standing;

// A load's counts: users, permissions and grants.
#[repr(C)]
#[derive(Clone, Copy)]
pub struct LoadAnswer {
    pub number: usize,
    pub users: usize,
    pub permissions: usize,
    pub grants: usize,
}

// A reduction's counts: the kernel's size k and the witness's count w.
#[repr(C)]
#[derive(Clone, Copy)]
pub struct ReduceAnswer {
    pub number: usize,
    pub kernel: usize,
    pub witness: usize,
}

// A search's steps, how many of them placed, took back and closed, its roles, bound and state; a refused search names
// no state.
#[derive(Clone, Copy)]
pub struct SearchAnswer {
    pub number: usize,
    pub steps: u32,
    pub placed: u32,
    pub taken_back: u32,
    pub closed: u32,
    pub roles: usize,
    pub bound: usize,
    pub state: Option<Standing>,
}

// A writing's byte count.
#[repr(C)]
#[derive(Clone, Copy)]
pub struct WriteAnswer {
    pub number: usize,
    pub count: usize,
}

impl LoadAnswer {
    // A refusal.
    pub fn refused(number: usize) -> LoadAnswer
        ensures { load_said result ≡ load_refused number }
    {
        LoadAnswer {
            number,
            users: 0,
            permissions: 0,
            grants: 0,
        }
    }
}

impl ReduceAnswer {
    // A refusal.
    pub fn refused(number: usize) -> ReduceAnswer
        ensures { reduce_said result ≡ reduce_refused number }
    {
        ReduceAnswer {
            number,
            kernel: 0,
            witness: 0,
        }
    }

    // The sizes that were found.
    pub fn found(kernel: usize, witness: usize) -> ReduceAnswer
        ensures { reduce_said result ≡ record { number = 0; kernel = kernel; witness = witness } }
    {
        ReduceAnswer {
            number: 0,
            kernel,
            witness,
        }
    }
}

impl SearchAnswer {
    // A refusal, which names no state.
    pub fn refused(number: usize) -> SearchAnswer
        ensures { search_said result ≡ search_refused number }
    {
        SearchAnswer {
            number,
            steps: 0,
            placed: 0,
            taken_back: 0,
            closed: 0,
            roles: 0,
            bound: 0,
            state: None,
        }
    }

    // The steps made, what they were, and the counts where the search then stands.
    pub fn found(steps: u32, kinds: Kinds, counts: Counts) -> SearchAnswer
        ensures { search_said result ≡ record {
          number = 0;
          steps = steps;
          placed = kinds.placed;
          taken_back = kinds.taken_back;
          closed = kinds.closed;
          roles = counts.roles;
          bound = counts.bound;
          standing = some (standing_case counts.standing);
        } }
    {
        SearchAnswer {
            number: 0,
            steps,
            placed: kinds.placed,
            taken_back: kinds.taken_back,
            closed: kinds.closed,
            roles: counts.roles,
            bound: counts.bound,
            state: Some(counts.standing),
        }
    }
}

impl WriteAnswer {
    // A refusal.
    pub fn refused(number: usize) -> WriteAnswer
        ensures { write_said result ≡ write_refused number }
    {
        WriteAnswer { number, count: 0 }
    }

    // What writing a book answered: its byte count, or that the buffer is shorter than the book.
    pub fn of(written: Result<usize, Refusal>) -> WriteAnswer
        ensures { write_said result ≡ writing_said written }
    {
        match written {
            Ok(count) => WriteAnswer { number: 0, count },
            Err(refusal) => WriteAnswer::refused(refusal.number()),
        }
    }
}
