// A priority queue in a lent slice, for every kind of entry that has a total order.
#![tactic(auto)]

mod entry;
mod heap;
mod kinds;
mod lent;
#[cfg(test)]
mod tests;

pub use entry::Entry;
pub use kinds::{Dated, Keyed};
pub use lent::Queue;
