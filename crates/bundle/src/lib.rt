// Bundles: lines of text that are taken in and answered over a history.
#![tactic(auto)]

mod printing;
mod reply;
mod running;
mod tally;

pub use running::run;
pub use tally::Tally;
