// Merge bases.
pub(crate) mod function;
mod ids;
pub(crate) mod octopus;
pub(crate) mod search;
