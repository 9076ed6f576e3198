// What the words mean: ids, commits, reaching, best sets, bases and names, with the laws that hold of them.
#![tactic(auto)]

mod hex;
mod id;
mod key;
mod refusal;
pub mod theorems;

pub use id::Id;
pub use key::rank;
pub use refusal::Refusal;
