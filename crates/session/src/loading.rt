// Loads: a sheet taken in, or refused.
ghost use Rattle.std.specs.Prelude.{◌≡◌, ◌≢◌};
ghost use Rattle.spec.specs.Sheet.{sheet_of};
ghost use Rattle.spec.specs.Refusal.{refusal};
ghost use Rattle.spec.specs.Session.{fresh, read};
ghost use Rattle.spec.specs.Calls.{Loads, load_counts};
ghost use Rattle.names.specs.LaidOut.{LaidOut};
ghost use Rattle.cells.specs.RowsRead.{RowsRead};
ghost use Rattle.sheet.specs.OnlyNames.{OnlyNames};
ghost use Rattle.answers.specs.Said.{load_said};
ghost use Rattle.session.specs.CodeSession.{no_position, view, Sound};

use crate::Session;
use answers::LoadAnswer;
use moves::Sizes;
use names::Layout;
use numbers::{CELL_WORDS, KERNEL_LIMIT, SHEET_LIMIT};
use preparing::Prepared;
use search::Position;
use sheet::SheetRead;

// The session after a load, and what the load answers.
#[repr(C)]
#[derive(Clone, Copy)]
pub struct Loaded {
    pub session: Session,
    pub answer: LoadAnswer,
}

// Where the search stands while no sheet is reduced: no grant, no class.
#[tactic(auto, unfolding(spec::specs::Limits::search_limit))]
fn no_position() -> Position
    ensures { result ≡ no_position }
{
    let sizes = Sizes {
        kernel: 0,
        singles: 0,
        witness: 0,
    };
    Position::start([0u8; KERNEL_LIMIT], 0, sizes)
}

impl Session {
    // A session with no accepted sheet.
    pub fn fresh() -> Session
        ensures result_value { view result ≡ fresh }
        ensures sound { Sound result }
    {
        Session {
            loaded: false,
            reduced: false,
            length: 0,
            text: [0; SHEET_LIMIT],
            layout: Layout::none(),
            rows: [0; CELL_WORDS],
            position: no_position(),
            prepared: Prepared::none(),
        }
    }

    // Takes in a sheet and leaves it not reduced, or refuses it and leaves the session as it was.
    #[inline(always)]
    pub fn load(self, s: &[u8]) -> Loaded
        requires { Sound self }
        ensures loads { Loads (view self) s.now (load_said result.answer) (view result.session) }
        ensures sound { Sound result.session }
        ensures session_value { result.answer.number ≢ 0 → result.session ≡ self }
    {
        match sheet::read(s) {
            Err(refusal) => Loaded {
                session: self,
                answer: LoadAnswer::refused(refusal.number()),
            },
            Ok(found) => Session::holding(s, &found),
        }
    }

    // The session that holds an accepted sheet, not reduced, and what its load answers. Like a load it stands in the
    // place of its call: were it called, room for a whole session would be made blank first, and moved afterwards.
    #[inline(always)]
    fn holding(s: &[u8], found: &SheetRead) -> Loaded
        requires unrefused { refusal s.now ≡ 0 }
        requires found_in { LaidOut s.now found.now.layout × RowsRead found.now.rows (sheet_of s.now)
            × OnlyNames found.now.layout }
        ensures counts { load_said result.answer ≡ load_counts (sheet_of s.now) }
        ensures held { view result.session ≡ read s.now }
        ensures sound { Sound result.session }
    {
        let text = kept::copied(s);
        let layout = found.layout;
        let rows = found.rows;
        let answer = LoadAnswer {
            number: 0,
            users: layout.users,
            permissions: layout.permissions,
            grants: layout.grants,
        };
        let session = Session {
            loaded: true,
            reduced: false,
            length: s.len(),
            text,
            layout,
            rows,
            position: no_position(),
            prepared: Prepared::none(),
        };
        Loaded { session, answer }
    }
}
