// Searches: the session's own position moved forward within a budget.
ghost use Rattle.std.specs.Prelude.{◌≡◌, ◌≢◌};
ghost use Rattle.spec.specs.Calls.{Searches};
ghost use Rattle.answers.specs.Said.{search_said};
ghost use Rattle.session.specs.CodeSession.{view, Sound};

use crate::Session;
use crate::readiness::ready;
use answers::SearchAnswer;
use moves::Sizes;

// The session after a search, and what the search answers.
#[derive(Clone, Copy)]
pub struct Searched {
    pub session: Session,
    pub answer: SearchAnswer,
}

impl Session {
    // Moves the session's own position forward by as many steps as the budget, or by those left until finished if
    // fewer; with a kernel too great to be searched by none. Refused without an accepted sheet, and while the sheet is
    // not reduced.
    pub fn search(mut self, budget: u32) -> Searched
        requires { Sound self }
        ensures searches { Searches (view self) budget (search_said result.answer) (view result.session) }
        ensures sound { Sound result.session }
        ensures session_value { result.answer.number ≢ 0 → result.session ≡ self }
    {
        if let Err(refusal) = ready(self.loaded, self.reduced) {
            return Searched {
                session: self,
                answer: SearchAnswer::refused(refusal.number()),
            };
        }
        let from = self.position;
        let table = self.prepared.table;
        let sizes = Sizes {
            kernel: self.prepared.kernel.size,
            singles: self.prepared.reduced.singles,
            witness: self.prepared.witness.count,
        };
        let ran = from.search(&table, sizes, budget);
        let position = ran.position;
        self.position = position;
        let counts = answers::counts_at(
            self.position.cursor.count,
            self.prepared.reduced.singles,
            self.prepared.witness.count,
            self.position.cursor.finished,
        );
        let kinds = ran.kinds;
        Searched {
            session: self,
            answer: SearchAnswer::found(ran.steps, kinds, counts),
        }
    }
}
