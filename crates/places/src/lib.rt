// Where the names of a list stand in a sheet: the place of a name as one number, its two ends, room for places, and the
// first of them.

#![tactic(auto)]

mod places;

pub use places::{Places, first_places, from_of, place_of, to_of};
