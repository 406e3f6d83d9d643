//! Texts of scalars: whole numbers, decimals, dates and times of day.
//!
//! The contract for the layers above: each kind has one text for a number, which is appended, and a text is read as a number exactly if it is that
//! number's text, byte for byte. A decimal stands as a multiple of its last digit's worth, a date as the number of days since 1970-01-01, a time of
//! day as the number of seconds since midnight.
#![tactic(auto)]

mod digits;
mod numbers;

pub use digits::{push_date, push_decimal, push_time};
pub use numbers::{day_of, int_of, parts_of, seconds_of};
