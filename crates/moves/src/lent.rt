// The search's own position moved forward: the small struct of depth, next try and best count is lent to one thin
// step function. All that both functions do is what `moved` does.
ghost use Rattle.moves.specs.Lent.{step_to, Ready, Moved};

use crate::cursor::{Cursor, Sizes, Step};
use crate::kinds::StepKind;
use crate::moves;
use numbers::{KERNEL_LIMIT, TABLE_WORDS};

// One step: the lent cursor is moved forward, and what the step was is handed back.
pub fn advance<'s, 'a>(
    at: &'s mut Cursor,
    classes: &'a mut [u8; KERNEL_LIMIT],
    best: &'a mut [u8; KERNEL_LIMIT],
    members: &'a mut [u64; TABLE_WORDS],
    fit: &'a [u64; TABLE_WORDS],
    sizes: Sizes,
) -> StepKind
    requires { Ready sizes.kernel at.old classes.old best.old members.old }
    ensures { Moved fit.now sizes at.old classes.old best.old
        (step_to at.new result) classes.new best.new members.new }
{
    let step = moves::moved(*at, classes, best, members, fit, sizes);
    *at = step.cursor;
    step.kind
}

// The same with the cursor in a local of its own, so that whoever calls this lends no struct.
pub fn advanced<'a>(
    at: Cursor,
    classes: &'a mut [u8; KERNEL_LIMIT],
    best: &'a mut [u8; KERNEL_LIMIT],
    members: &'a mut [u64; TABLE_WORDS],
    fit: &'a [u64; TABLE_WORDS],
    sizes: Sizes,
) -> Step
    requires { Ready sizes.kernel at classes.old best.old members.old }
    ensures { Moved fit.now sizes at classes.old best.old result
        classes.new best.new members.new }
{
    let mut cursor = at;
    let kind = advance(&mut cursor, classes, best, members, fit, sizes);
    Step { cursor, kind }
}
