// A session held by another language: each function is the session's own call of that name. Other languages keep what
// `Sound` asks by handing in only sessions that these functions gave. A writing gives none: the session that was
// handed in is the one after it.
ghost use Rattle.std.specs.Prelude.{◌≡◌, ◌≢◌, false};
ghost use Rattle.spec.specs.Session.{fresh};
ghost use Rattle.spec.specs.Refusal.{not_reduced};
ghost use Rattle.spec.specs.Calls.{Loads, Reduces, Writes};
ghost use Rattle.answers.specs.Said.{load_said, reduce_said, write_said};
ghost use Rattle.session.specs.CodeSession.{view, Sound};
ghost use Rattle.porvuund.specs.SearchNumbers.{SearchesAs};

use answers::WriteAnswer;
use porvuund::SearchedNumbers;
use session::{Loaded, Reduced, Session};

#[unsafe(no_mangle)]
pub extern "C" fn porvuund_fresh() -> Session
    ensures result_value { view result ≡ fresh }
    ensures sound { Sound result }
{
    porvuund::porvuund_fresh()
}

#[unsafe(no_mangle)]
pub extern "C" fn porvuund_load(session: Session, sheet: &[u8]) -> Loaded
    requires { Sound session }
    ensures loads { Loads (view session) sheet.now (load_said result.answer) (view result.session) }
    ensures sound { Sound result.session }
    ensures session_value { result.answer.number ≢ 0 → result.session ≡ session }
{
    porvuund::porvuund_load(session, sheet)
}

#[unsafe(no_mangle)]
pub extern "C" fn porvuund_reduce(session: Session) -> Reduced
    requires { Sound session }
    ensures reduces { Reduces (view session) (reduce_said result.answer) (view result.session) }
    ensures sound { Sound result.session }
    ensures session_value { result.answer.number ≢ 0 → result.session ≡ session }
    ensures session_value_2 { not_reduced (view session) ≡ false → result.session ≡ session }
{
    porvuund::porvuund_reduce(session)
}

#[unsafe(no_mangle)]
pub extern "C" fn porvuund_search(session: Session, budget: u32) -> SearchedNumbers
    requires { Sound session }
    ensures searches_as { SearchesAs (view session) budget result.answer (view result.session) }
    ensures sound { Sound result.session }
    ensures session_value { result.answer.number ≢ 0 → result.session ≡ session }
{
    porvuund::porvuund_search(session, budget)
}

#[unsafe(no_mangle)]
pub extern "C" fn porvuund_write(session: Session, out: &mut [u8]) -> WriteAnswer
    requires { Sound session }
    ensures { Writes (view session) out.old (write_said result) out.new (view session) }
{
    porvuund::porvuund_write(session, out)
}
