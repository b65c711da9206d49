// Counts in decimal: measured and written.

#![tactic(auto)]

mod decimal;

pub use decimal::{decimal_length, put_counted, put_decimal};
