// Orders carried out over a history, and what they are answered by.
#![tactic(auto)]

mod answer;
mod carry;
#[cfg(test)]
mod tests;

pub use answer::Answer;
pub use carry::{carry_out, parent_place};
