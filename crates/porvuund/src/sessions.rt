// A session held by another language: each function is the session's own call of that name. Other languages keep what
// `Sound` asks by handing in only sessions that these functions gave. A writing gives none: the session that was
// handed in is the one after it.
ghost use Rattle.std.specs.Prelude.{◌≡◌, ◌≢◌, false};
ghost use Rattle.spec.specs.Session.{fresh};
ghost use Rattle.spec.specs.Refusal.{not_reduced};
ghost use Rattle.spec.specs.Calls.{Loads, Reduces, Writes};
ghost use Rattle.answers.specs.Said.{load_said, reduce_said, write_said, state_said};
ghost use Rattle.session.specs.CodeSession.{view, Sound};
ghost use Rattle.porvuund.specs.SearchNumbers.{state_number, SearchesAs};

use answers::WriteAnswer;
use session::{Loaded, Reduced, Session};
use standing::Standing;

// What a search answers, with a number for its state: 1 witnessed, 2 searched, 3 open, and 0 for none.
#[repr(C)]
#[derive(Clone, Copy)]
pub struct SearchNumbers {
    pub number: usize,
    pub steps: u32,
    pub placed: u32,
    pub taken_back: u32,
    pub closed: u32,
    pub state: u32,
    pub roles: usize,
    pub bound: usize,
}

// The session after a search, and what the search answers.
#[repr(C)]
#[derive(Clone, Copy)]
pub struct SearchedNumbers {
    pub session: Session,
    pub answer: SearchNumbers,
}

// The number of a state.
fn number_of(named: Option<Standing>) -> u32
    ensures { result ≡ state_number (state_said named) }
{
    match named {
        None => 0,
        Some(Standing::Witnessed) => 1,
        Some(Standing::Searched) => 2,
        Some(Standing::Open) => 3,
    }
}

pub fn porvuund_fresh() -> Session
    ensures result_value { view result ≡ fresh }
    ensures sound { Sound result }
{
    Session::fresh()
}

// Put into the place of its call: a session is large, and is moved once more by each call that stands.
#[inline(always)]
pub fn porvuund_load(session: Session, sheet: &[u8]) -> Loaded
    requires { Sound session }
    ensures loads { Loads (view session) sheet.now (load_said result.answer) (view result.session) }
    ensures sound { Sound result.session }
    ensures session_value { result.answer.number ≢ 0 → result.session ≡ session }
{
    session.load(sheet)
}

pub fn porvuund_reduce(session: Session) -> Reduced
    requires { Sound session }
    ensures reduces { Reduces (view session) (reduce_said result.answer) (view result.session) }
    ensures sound { Sound result.session }
    ensures session_value { result.answer.number ≢ 0 → result.session ≡ session }
    ensures session_value_2 { not_reduced (view session) ≡ false → result.session ≡ session }
{
    session.reduce()
}

pub fn porvuund_search(session: Session, budget: u32) -> SearchedNumbers
    requires { Sound session }
    ensures searches_as { SearchesAs (view session) budget result.answer (view result.session) }
    ensures sound { Sound result.session }
    ensures session_value { result.answer.number ≢ 0 → result.session ≡ session }
{
    let searched = session.search(budget);
    let after = searched.session;
    let answer = searched.answer;
    let named = answer.state;
    SearchedNumbers {
        session: after,
        answer: SearchNumbers {
            number: answer.number,
            steps: answer.steps,
            placed: answer.placed,
            taken_back: answer.taken_back,
            closed: answer.closed,
            state: number_of(named),
            roles: answer.roles,
            bound: answer.bound,
        },
    }
}

pub fn porvuund_write(session: Session, out: &mut [u8]) -> WriteAnswer
    requires { Sound session }
    ensures { Writes (view session) out.old (write_said result) out.new (view session) }
{
    session.write(out)
}
