// A text read from front to back: the field that stands at a cursor, and where to go on.

#![tactic(auto)]

mod cursor;

pub use cursor::{Cursor, FieldRead};
