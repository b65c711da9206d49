// What a text is by its bytes: of a sheet, of a name, the word `user`; and whether it is as long as a name.

#![tactic(auto)]

mod kinds;

pub use kinds::{Kind, all_of, is_user, is_within, name_length};
