// Which of the three a step was, and how many there were of each.
ghost use Rattle.std.specs.Prelude.{◌≡◌, ◌+◌, ◌<◌};
ghost use Rattle.spec.specs.Machine.{no_kinds, counted};
ghost use Rattle.moves.specs.StepKinds.{count_end, kind_case, kinds_said};

// A step placed one grant, took one back, or closed the search.
#[derive(Clone, Copy)]
pub enum StepKind {
    Placed,
    TookBack,
    Closed,
}

// How many of some steps placed, took back and closed.
#[derive(Clone, Copy)]
pub struct Kinds {
    pub placed: u32,
    pub taken_back: u32,
    pub closed: u32,
}

impl Kinds {
    // No step.
    pub fn none() -> Kinds
        ensures { kinds_said result ≡ no_kinds }
    {
        Kinds {
            placed: 0,
            taken_back: 0,
            closed: 0,
        }
    }

    // One more of a kind.
    pub fn counted(self, kind: StepKind) -> Kinds
        requires { self.placed + self.taken_back + self.closed + 1 < count_end }
        ensures { kinds_said result ≡ counted (kind_case kind) (kinds_said self) }
    {
        let mut more = self;
        match kind {
            StepKind::Placed => more.placed += 1,
            StepKind::TookBack => more.taken_back += 1,
            StepKind::Closed => more.closed += 1,
        }
        more
    }
}
