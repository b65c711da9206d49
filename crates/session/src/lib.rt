// A session: loads, reductions, searches and writings.
//
// A session is a value: a load, a reduction or a search takes one and hands back the next, with its answer; a writing
// changes none and hands back its answer alone; a copy that is kept goes on as a sequence of its own. Each call says
// its whole answer, the session after it and, of a writing, every byte of the lent buffer, by the records `Loads`,
// `Reduces`, `Searches` and `Writes` of Calls in `spec`, which the sequence of demand 3 is made of; a sheet is lent to
// be read only. A call asks only that the session came from these calls (`Sound`), which `fresh` establishes and each
// call keeps.

#![tactic(auto)]

mod loading;
mod readiness;
mod reducing;
mod searching;
mod writing;

pub use loading::Loaded;
use names::Layout;
use numbers::{CELL_WORDS, SHEET_LIMIT};
use preparing::Prepared;
pub use reducing::Reduced;
use search::Position;
pub use searching::Searched;

// Whether a sheet was accepted and whether it is reduced; where the search stands; the sheet's bytes, where its names
// stand and its cells; and what the reduction found. While it is not reduced, the search's place and what was found are
// those of nothing. The fields are the session's own: what it stands for is its `view`, and which values come from the
// calls is said by `Sound`.
#[repr(C)]
#[derive(Clone, Copy)]
pub struct Session {
    loaded: bool,
    reduced: bool,
    position: Position,
    length: usize,
    text: [u8; SHEET_LIMIT],
    layout: Layout,
    rows: [u64; CELL_WORDS],
    prepared: Prepared,
}
