// What the lines of a bundle say: orders for a history, or the first field that is not as expected.
#![tactic(auto)]

mod describing;
mod expected;
mod from_text;
mod number;
mod order;
mod parent;
mod parsing;
mod readers;
mod words;

pub use expected::{Expected, Malformed};
pub use order::{Offer, Order};
pub use parent::Parent;
pub use parsing::{Fault, parse};
