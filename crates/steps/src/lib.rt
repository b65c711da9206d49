// Steps over a text: bytes that are known, a name in whatever case, and a part up to a byte.

#![tactic(auto)]

mod name;
mod step;

pub use name::expect_name;
pub use step::{expect, expect_byte, part_end};
