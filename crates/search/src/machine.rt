// Where the machine stands, one step from there, and a run within a budget.
ghost use Rattle.std.specs.Prelude.{◌≡◌, ◌<◌, ◌≤◌};
ghost use Rattle.spec.specs.Limits.{search_limit};
ghost use Rattle.spec.specs.Machine.{step, run, search};
ghost use Rattle.moves.specs.FitTable.{kernel_given};
ghost use Rattle.search.specs.View.{view, view_stepped, view_ran, PositionStands, started};

use marks::Marks;
use moves::{Cursor, Kinds, Sizes, StepKind};
use numbers::{KERNEL_LIMIT, TABLE_WORDS};

// The state of the machine: a cursor, the classes of the grants placed, and the best placement. Which positions stand
// for a state is said by `PositionStands`; whoever makes one otherwise than by `start` and the steps from there has
// to show it.
#[repr(C)]
#[derive(Clone, Copy)]
pub struct Position {
    pub cursor: Cursor,
    pub classes: [u8; KERNEL_LIMIT],
    pub best: [u8; KERNEL_LIMIT],
}

// Where one step led, and which of the three it was.
#[derive(Clone, Copy)]
pub struct Stepped {
    pub position: Position,
    pub kind: StepKind,
}

// Where some steps led, how many they were, and how many of each kind.
#[derive(Clone, Copy)]
pub struct Ran {
    pub position: Position,
    pub steps: u32,
    pub kinds: Kinds,
}

impl Position {
    // The parts as one position.
    fn of(cursor: Cursor, classes: [u8; KERNEL_LIMIT], best: [u8; KERNEL_LIMIT]) -> Position
        ensures { result ≡ record { cursor = cursor; classes = classes; best = best } }
    {
        Position {
            cursor,
            classes,
            best,
        }
    }

    // The position before the first step, with a first placement and its class count.
    pub fn start(first: [u8; KERNEL_LIMIT], count: usize, sizes: Sizes) -> Position
        ensures { result ≡ started first count sizes }
    {
        let cursor = Cursor {
            depth: 0,
            next: 0,
            used: 0,
            count,
            finished: moves::reaches(count, sizes),
            opened: Marks { low: 0, high: 0 },
        };
        Position::of(cursor, [0u8; KERNEL_LIMIT], first)
    }

    // One step: it places one grant, takes one back, or closes the search, and says which. The members of each class
    // are gathered for it.
    pub fn step(self, fit: &[u64; TABLE_WORDS], sizes: Sizes) -> Stepped
        requires { PositionStands sizes.kernel self }
        ensures kernel_value { view_stepped result sizes.kernel ≡ step (kernel_given fit.now sizes)
            (view self sizes.kernel) }
        ensures position_stands { PositionStands sizes.kernel result.position }
    {
        let at = self.cursor;
        let mut classes = self.classes;
        let mut best = self.best;
        let mut members = moves::gathered(&classes, at.depth);
        let step = moves::moved(at, &mut classes, &mut best, &mut members, fit, sizes);
        let cursor = step.cursor;
        let position = Position::of(cursor, classes, best);
        let kind = step.kind;
        Stepped { position, kind }
    }

    // As many steps as the budget, or those left until finished if fewer. The cursor and the arrays are lent to each.
    pub fn run(self, fit: &[u64; TABLE_WORDS], sizes: Sizes, budget: u32) -> Ran
        requires { PositionStands sizes.kernel self }
        ensures kernel_value { view_ran result sizes.kernel ≡ run (kernel_given fit.now sizes) budget
            (view self sizes.kernel) }
        ensures position_stands { PositionStands sizes.kernel result.position }
    {
        let mut at = self.cursor;
        let mut classes = self.classes;
        let mut best = self.best;
        let mut members = moves::gathered(&classes, at.depth);
        let mut steps = 0;
        let mut kinds = Kinds::none();
        // Counted by hand: a search that is finished stops before its budget, and answers how many steps it made.
        while steps < budget && !at.finished {
            steps += 1;
            let step = moves::advanced(at, &mut classes, &mut best, &mut members, fit, sizes);
            at = step.cursor;
            let kind = step.kind;
            kinds = kinds.counted(kind);
        }
        let position = Position::of(at, classes, best);
        Ran {
            position,
            steps,
            kinds,
        }
    }

    // A search: a run, or no step with more kernel grants than are searched.
    pub fn search(self, fit: &[u64; TABLE_WORDS], sizes: Sizes, budget: u32) -> Ran
        requires { sizes.kernel ≤ search_limit → PositionStands sizes.kernel self }
        ensures kernel_value { view_ran result sizes.kernel ≡ search (kernel_given fit.now sizes) budget
            (view self sizes.kernel) }
        ensures position_stands { sizes.kernel ≤ search_limit → PositionStands sizes.kernel result.position }
        ensures position_value { search_limit < sizes.kernel → result.position ≡ self }
    {
        if KERNEL_LIMIT < sizes.kernel {
            return Ran {
                position: self,
                steps: 0,
                kinds: Kinds::none(),
            };
        }
        self.run(fit, sizes, budget)
    }
}
