// The kinds of numbers, every limit of the code, and why calls are refused.

#![tactic(auto)]

mod limits;
mod numbers;
mod refusal;

pub use limits::{
    BOOK_LIMIT, CELL_LIMIT, CELL_WORDS, COUNT_CAP, GRANT_LIMIT, KERNEL_LIMIT, KERNEL_WORDS,
    NAME_LIMIT, PERMISSION_LIMIT, ROLE_LIMIT, ROLE_WORDS, ROW_BITS, ROW_WORDS, SHEET_LIMIT,
    TABLE_WORDS, USER_LIMIT,
};
pub use numbers::{CellNo, GrantNo, PermissionNo, RoleNo, UserNo};
pub use refusal::Refusal;
