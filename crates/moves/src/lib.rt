// What a step of the search machine does, over a cursor by value and lent arrays: the next grant is placed, the
// latest is taken back, or the search is closed.
//
// It is written once, in `moved` (moves.rt). Beside the classes of the placed grants a step goes by the members of
// each class as a table of words (members.rt), which follows from them: `gathered` makes the table, and each step
// keeps it. `advance` (lent.rt) is the one thin step function, to which a search's cursor is lent; `advanced` has the
// cursor in a local and lends that.
//
// A cursor, the classes of the placed grants and the best placement are the parts of a position, and stand for a
// state of Machine in `spec` (`Parts`). The contracts say that a step moves that state as the machine does, and
// says which of the three it was.

#![tactic(auto)]

mod choice;
mod cursor;
mod kinds;
mod lent;
mod members;
mod moves;

pub use cursor::{Cursor, Sizes, Step};
pub use kinds::{Kinds, StepKind};
pub use lent::advanced;
pub use members::gathered;
pub use moves::{moved, reaches};
