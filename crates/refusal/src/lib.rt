// The judgement of a sheet cause by cause: the lowest number that applies; and two of its parts, by which further user
// lines can be judged.

#![tactic(auto)]

mod body;
mod fields;
mod line;
mod name_places;
mod refusal;

pub use body::{Body, read_body};
pub use refusal::{has_bad_bytes, judge};
