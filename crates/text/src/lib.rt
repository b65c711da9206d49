// Bytes as text: which bytes there are, bytes compared, bytes written to the front of a lent buffer.

#![tactic(auto)]

mod bytes;
mod put;
mod same;

pub use bytes::{COMMA, LETTERS, LINE_FEED, is_allowed, is_name_byte, is_separator, stands_at};
pub use put::{put_bytes, put_empty_line, put_field};
pub use same::{same_bytes, same_name};
