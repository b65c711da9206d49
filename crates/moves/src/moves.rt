// What a step does, over a cursor by value and lent arrays: the next grant is placed, the latest is taken back, or
// the search is closed.
ghost use Rattle.std.specs.Prelude.{◌≡◌, ◌+◌, ◌<◌, ◌≤◌, eqb};
ghost use Rattle.marks.specs.Marks.{mark_limit};
ghost use Rattle.moves.specs.Lent.{Ready, Moved};
ghost use Rattle.moves.specs.CursorAfter.{CursorPlaced, taken_back};

use crate::cursor::{Cursor, Sizes, Step};
use crate::kinds::StepKind;
use crate::{choice, members};
use numbers::{GrantNo, KERNEL_LIMIT, TABLE_WORDS};

// Whether a number of classes plus singles equals w, with no sum that could wrap.
pub fn reaches(count: usize, sizes: Sizes) -> bool
    ensures { result ≡ eqb (count + sizes.singles) sizes.witness }
{
    if sizes.witness < count {
        return false;
    }
    sizes.witness - count == sizes.singles
}

impl Cursor {
    // The next grant placed in a class.
    fn placed(self, class: usize) -> Cursor
        requires depth_lt_mark_limit { self.depth < mark_limit }
        requires class_le_used { class ≤ self.used }
        requires used_lt_count { self.used < self.count }
        ensures { CursorPlaced self class result }
    {
        let d = self.depth;
        let opened = self.opened;
        let mut after = self;
        after.depth = d + 1;
        after.next = 0;
        if class == self.used {
            after.used = class + 1;
            after.opened = opened.with(d);
            return after;
        }
        after.opened = opened.without(d);
        after
    }

    // The latest grant taken back, which was in a class.
    fn taken_back(self, class: usize) -> Cursor
        requires depth_nonzero { 0 < self.depth }
        requires depth_le_mark_limit { self.depth ≤ mark_limit }
        requires class_lt_mark_limit { class < mark_limit }
        requires used_nonzero { 0 < self.used }
        ensures { result ≡ taken_back self class }
    {
        let d = self.depth - 1;
        let opened = self.opened;
        let mut after = self;
        after.depth = d;
        after.next = class + 1;
        if opened.has(d) {
            after.used = self.used - 1;
            return after;
        }
        after
    }
}

// One step: the cursor that it leads to, and which of the three it was. The classes, the best placement and the members
// of each class are then as that cursor has them.
pub fn moved<'a>(
    at: Cursor,
    classes: &'a mut [u8; KERNEL_LIMIT],
    best: &'a mut [u8; KERNEL_LIMIT],
    members: &'a mut [u64; TABLE_WORDS],
    fit: &'a [u64; TABLE_WORDS],
    sizes: Sizes,
) -> Step
    requires { Ready sizes.kernel at classes.old best.old members.old }
    ensures { Moved fit.now sizes at classes.old best.old result
        classes.new best.new members.new }
{
    let d = at.depth;
    let end = choice::class_end(d, sizes.kernel, at.used, at.count);
    let class = choice::class_for(members, fit, GrantNo(d), at.next, end);
    if class < end {
        classes[d] = class as u8;
        members::set(members, class, GrantNo(d), true);
        let mut placed = at.placed(class);
        if d + 1 == sizes.kernel {
            placed.count = placed.used;
            placed.finished = reaches(placed.used, sizes);
            *best = *classes;
            return Step {
                cursor: placed,
                kind: StepKind::Placed,
            };
        }
        return Step {
            cursor: placed,
            kind: StepKind::Placed,
        };
    }
    if d == 0 {
        let mut closed = at;
        closed.finished = true;
        return Step {
            cursor: closed,
            kind: StepKind::Closed,
        };
    }
    let last = classes[d - 1] as usize;
    members::set(members, last, GrantNo(d - 1), false);
    let back = at.taken_back(last);
    Step {
        cursor: back,
        kind: StepKind::TookBack,
    }
}
