// The lines of a text, and the fields of a line.
#![tactic(auto)]

mod field;
mod line;

pub use field::{fields, nth_field};
pub use line::{Lines, is_passed_over, next_line, starts_with, trim};
