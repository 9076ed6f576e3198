// Runs: calls on a history one after another, and what holds after any list of them.
#![tactic(auto)]

mod call;
mod running;
mod several;
mod stepping;
#[cfg(test)]
mod tests;
pub mod theorems;

pub use call::{Call, Event};
pub use running::{Stopped, run};
pub use several::{Addressed, Halted, Noted, Why, run_all};
