// Names as parts of the sheet itself: where they stand, one by its number, and the number of one.

#![tactic(auto)]

mod layout;
mod lookup;

pub use layout::{Layout, permission_name_in, user_name_in};
pub use lookup::{find_from, part_at};
