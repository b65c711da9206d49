// The steps of a search made one by one, each a position that is handed the next, and whether they come to the same
// as the search.
ghost use Rattle.std.specs.Prelude.{◌≡◌, true, ◌≤◌};
ghost use Rattle.spec.specs.Limits.{search_limit};
ghost use Rattle.spec.specs.Machine.{run};
ghost use Rattle.lists.specs.LatestFirst.{latest_first};
ghost use Rattle.moves.specs.FitTable.{kernel_given};
ghost use Rattle.moves.specs.StepKinds.{kinds_said};
ghost use Rattle.search.specs.View.{view, view_ran, PositionStands};
ghost use Rattle.search_cases.specs.Crown.{grants, sizes};
ghost use Rattle.search_cases.specs.Same.{Tells};

use crate::crown;
use moves::Kinds;
use numbers::{KERNEL_LIMIT, TABLE_WORDS};
use search::{Position, Ran};

// As many steps as the budget, or those left until finished if fewer.
pub fn steps_from(from: Position, fit: &[u64; TABLE_WORDS], budget: u32) -> Ran
    requires { PositionStands grants from }
    ensures { view_ran result grants ≡ run (kernel_given fit.now sizes) budget
        (view from grants) }
{
    let mut position = from;
    let mut steps = 0;
    let mut kinds = Kinds::none();
    // A finished search stops before its budget.
    while steps < budget && !position.cursor.finished {
        steps += 1;
        let stepped = position.step(fit, crown::SIZES);
        position = stepped.position;
        let kind = stepped.kind;
        kinds = kinds.counted(kind);
    }
    Ran {
        position,
        steps,
        kinds,
    }
}

// Whether the first grants are placed alike.
#[tactic(auto, unfolding(spec::specs::Limits::search_limit))]
fn same_classes<'a>(a: &'a [u8; KERNEL_LIMIT], b: &'a [u8; KERNEL_LIMIT], count: usize) -> bool
    requires { count ≤ search_limit }
    ensures { Tells result (latest_first a.now count ≡ latest_first b.now count) }
{
    for i in 0..count {
        if a[i] != b[i] {
            return false;
        }
    }
    true
}

// Whether there are as many steps of each kind.
fn same_kinds(a: Kinds, b: Kinds) -> bool
    ensures { Tells result (kinds_said a ≡ kinds_said b) }
{
    if a.placed != b.placed {
        return false;
    }
    if a.taken_back != b.taken_back {
        return false;
    }
    a.closed == b.closed
}

// Whether two runs made as many steps of each kind and came to the same state.
pub fn same(a: Ran, b: Ran) -> bool
    requires { PositionStands grants a.position }
    ensures { Tells result (view_ran a grants ≡ view_ran b grants) }
{
    if a.steps != b.steps {
        return false;
    }
    let at = a.position.cursor;
    let place = b.position.cursor;
    if at.depth != place.depth {
        return false;
    }
    if at.next != place.next {
        return false;
    }
    if at.finished != place.finished {
        return false;
    }
    if !same_classes(&a.position.classes, &b.position.classes, at.depth) {
        return false;
    }
    if !same_kinds(a.kinds, b.kinds) {
        return false;
    }
    same_classes(&a.position.best, &b.position.best, crown::GRANTS)
}

// Whether the steps made one by one come to the same as one search.
pub fn as_the_search(from: Position, fit: &[u64; TABLE_WORDS], budget: u32) -> bool
    requires { PositionStands grants from }
    ensures { result ≡ true }
{
    let searched = from.search(fit, crown::SIZES, budget);
    same(searched, steps_from(from, fit, budget))
}
