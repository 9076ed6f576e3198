// Histories: the interface, what refuses a commit, and a history in tables of its own.
#![tactic(auto)]

mod grow;
mod reader;
mod rows;
mod table;
mod verdict;

pub use ancestry::{Id, Refusal};
pub use grow::{History, NewCommit};
pub use reader::{Entry, Reader};
pub use rows::Rows;
pub use verdict::admits;
