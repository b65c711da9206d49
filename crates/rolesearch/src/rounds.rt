// Searches on one session, again and again, with a line on standard error after each.
ghost use Rattle.std.specs.Prelude.{◌≡◌, [], ◌∷◌};
ghost use Rattle.spec.specs.Limits.{round_budget};
ghost use Rattle.spec.specs.LongSearch.{says_open, long_search_output};
ghost use Rattle.text.specs.Written.{Written};
ghost use Rattle.answers.specs.Said.{state_said};
ghost use Rattle.session.specs.CodeSession.{view, Sound};
ghost use Rattle.rolesearch.specs.Rounds.{RoundsMade, steps_a_second};

use answers::SearchAnswer;
use digits::rounds_of;
use numbers::BOOK_LIMIT;
use outputs::{put_number_line, session_output};
use progress::{PROGRESS_BUFFER, put_progress};
use session::Session;
use standing::Standing;
use std::io::Result;
use std::time::{CpuClock, Duration};

// The descriptor of standard error.
const STANDARD_ERROR: i32 = 2;

// The budget of each search.
const ROUND_BUDGET: u32 = 100_000_000;

// The ticks of the processor's clock in a second.
const TICKS: u64 = 1_000_000;

// Where some searches led, how many there were, and the steps of all of them.
#[derive(Clone, Copy)]
struct Rounds {
    session: Session,
    searches: u32,
    so_far: usize,
}

// Whether a search answered `open`.
fn is_open(named: Option<Standing>) -> bool
    ensures { result ≡ says_open (state_said named) }
{
    matches!(named, Some(Standing::Open))
}

// A time of the processor's clock, in ticks; 0 where it could not be read.
fn ticks(time: Result<Duration>) -> u64 {
    time.map_or(0, |used| u64::try_from(used.as_micros()).unwrap_or(0))
}

// Steps a second, of steps that were made between two times of the processor's clock: 0 where it did not move.
fn speed(steps: u32, began: u64, ended: u64) -> usize
    ensures { result ≡ steps_a_second steps began ended }
{
    if ended <= began {
        return 0;
    }
    (steps as u64 * TICKS / (ended - began)) as usize
}

// Writes the line after a search to standard error.
fn report(so_far: usize, answer: SearchAnswer, speed: usize) {
    let mut line = [0u8; PROGRESS_BUFFER];
    let count = put_progress(&mut line, so_far, answer, speed);
    io::write_all(STANDARD_ERROR, &line[..count]);
}

// As many searches as the rounds, or up to the first that does not answer `open` if fewer, with a line after each.
fn search_rounds(rt: &HostRuntime, from: Session, rounds: u32) -> Rounds
    requires { Sound from }
    ensures rounds_made { RoundsMade round_budget rounds (view from) (view result.session) result.searches result.so_far }
    ensures sound { Sound result.session }
{
    let mut session = from;
    let mut searches = 0;
    let mut so_far = 0;
    let mut goes_on = true;
    // A search that does not answer `open` ends them before the rounds do.
    while searches < rounds && goes_on {
        searches += 1;
        let began = ticks(rt.process_cpu_time());
        let searched = session.search(ROUND_BUDGET);
        let ended = ticks(rt.process_cpu_time());
        session = searched.session;
        let answer = searched.answer;
        so_far += answer.steps as usize;
        report(so_far, answer, speed(answer.steps, began, ended));
        goes_on = is_open(answer.state);
    }
    Rounds {
        session,
        searches,
        so_far,
    }
}

// Puts what the long search prints for a sheet and its argument at the front of the buffer: the book, or the number of
// the refusal and a line feed. Without an argument the word is empty.
pub fn long_search<'a>(
    rt: &HostRuntime,
    sheet: &'a [u8],
    word: &'a [u8],
    out: &mut [u8; BOOK_LIMIT],
) -> usize
    ensures { Written (long_search_output sheet.now (word.now ∷ [])) out.old
        out.new result }
{
    let loaded = Session::fresh().load(sheet);
    let answer = loaded.answer;
    if answer.number != 0 {
        return put_number_line(out, answer.number);
    }
    let read = loaded.session;
    let reduced = read.reduce();
    let start = reduced.session;
    let made = search_rounds(rt, start, rounds_of(word));
    let session = made.session;
    session_output(session, out)
}
