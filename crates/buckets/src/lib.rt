// Whether a name stands twice among many: names are put into buckets, and compared with those of their own.

#![tactic(auto)]

mod buckets;

pub use buckets::repeated_in;
