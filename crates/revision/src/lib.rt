// The questions: merge bases, and the base common to all, over any history.
#![tactic(auto)]

mod merge_bases;
mod owned;
mod workspace;

pub use merge_bases::function::merge_base;
pub use merge_bases::octopus::octopus;
pub use owned::OwnedWorkspace;
pub use queue::Keyed;
pub use workspace::Workspace;
