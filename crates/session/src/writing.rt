// Writings: the book of the sheet where the search stands, into a lent buffer. A writing changes no session, so none
// is handed back.
ghost use Rattle.spec.specs.Calls.{Writes};
ghost use Rattle.answers.specs.Said.{write_said};
ghost use Rattle.session.specs.CodeSession.{view, Sound};

use crate::Session;
use crate::readiness::ready;
use answers::WriteAnswer;

impl Session {
    // Writes the book at the front of the buffer, or refuses and leaves every byte of it. The session after it is the
    // one before.
    pub fn write(self, out: &mut [u8]) -> WriteAnswer
        requires { Sound self }
        ensures { Writes (view self) out.old (write_said result) out.new (view self) }
    {
        if let Err(refusal) = ready(self.loaded, self.reduced) {
            return WriteAnswer::refused(refusal.number());
        }
        let size = self.prepared.kernel.size;
        let removals = self.prepared.reduced.count;
        let best = kept::best_of(&self.prepared.first.classes, &self.position.best, size);
        let kernel: &[u16] = &self.prepared.kernel.cells;
        let removed: &[u16] = &self.prepared.reduced.removed;
        let partner: &[u16] = &self.prepared.reduced.partner;
        let matrices = roles::roles_of(
            &self.rows,
            self.layout.users,
            &kernel[..size],
            best,
            self.position.cursor.count,
            &removed[..removals],
            &partner[..removals],
        );
        let counts = answers::counts_at(
            self.position.cursor.count,
            self.prepared.reduced.singles,
            self.prepared.witness.count,
            self.position.cursor.finished,
        );
        let witness = cells::listed(&self.prepared.witness.cells, self.layout.users);
        let lines: &[u16] = &witness.cells;
        let layout = self.layout;
        let text: &[u8] = &self.text;
        let writing = book::write_if_room(
            out,
            &text[..self.length],
            layout,
            &matrices.has,
            &matrices.gives,
            &lines[..witness.size],
            counts,
        );
        WriteAnswer::of(writing)
    }
}
