// The search machine over a kernel of at most KERNEL_LIMIT grants: where it stands, one step, and a search within a
// budget.
//
// A position is a value: `Position::step` takes one and hands back the next, and says whether it placed, took back or
// closed. A search takes the position apart, has its cursor and its arrays moved forward by `advanced` (moves), step
// after step, counts what the steps were, and puts it together again. What a step does is written once, in `moved`
// (moves), and both ways go through it. The table of the members of each class that it goes by follows from the placed
// grants: a search gathers it when it begins, a step by itself each time.
//
// What a position's words and bytes stand for is its `view`, a state of Machine in `spec`, and the contracts say that
// a step, a run and a search move the view as the machine moves its state. Of a greater kernel a search makes no
// step, and whoever has one keeps its best placement elsewhere.

#![tactic(auto)]

mod machine;

pub use machine::{Position, Ran, Stepped};
