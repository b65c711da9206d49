// Reductions: the sheet reduced, with the first cover, and the search at its start.
ghost use Rattle.std.specs.Prelude.{◌≡◌, ◌≢◌, false};
ghost use Rattle.spec.specs.Refusal.{not_reduced};
ghost use Rattle.spec.specs.Calls.{Reduces};
ghost use Rattle.answers.specs.Said.{reduce_said};
ghost use Rattle.session.specs.CodeSession.{view, Sound};

use crate::Session;
use answers::ReduceAnswer;
use moves::Sizes;
use numbers::Refusal;
use search::Position;

// The session after a reduction, and what the reduction answers.
#[repr(C)]
#[derive(Clone, Copy)]
pub struct Reduced {
    pub session: Session,
    pub answer: ReduceAnswer,
}

impl Session {
    // Reduces the sheet, makes the first cover and starts the search; of a sheet that is reduced already it answers the
    // same counts and hands back the very same session. Refused without an accepted sheet.
    pub fn reduce(mut self) -> Reduced
        requires { Sound self }
        ensures reduces { Reduces (view self) (reduce_said result.answer) (view result.session) }
        ensures sound { Sound result.session }
        ensures session_value { result.answer.number ≢ 0 → result.session ≡ self }
        ensures session_value_2 { not_reduced (view self) ≡ false → result.session ≡ self }
    {
        if !self.loaded {
            return Reduced {
                session: self,
                answer: ReduceAnswer::refused(Refusal::NoSheet.number()),
            };
        }
        if self.reduced {
            return Reduced {
                session: self,
                answer: ReduceAnswer::found(self.prepared.kernel.size, self.prepared.witness.count),
            };
        }
        let prepared = preparing::prepare(&self.rows, self.layout.users);
        let first = kept::first_classes(&prepared.first.classes);
        let sizes = Sizes {
            kernel: prepared.kernel.size,
            singles: prepared.reduced.singles,
            witness: prepared.witness.count,
        };
        let position = Position::start(first, prepared.first.used, sizes);
        self.reduced = true;
        self.prepared = prepared;
        self.position = position;
        Reduced {
            session: self,
            answer: ReduceAnswer::found(sizes.kernel, sizes.witness),
        }
    }
}
