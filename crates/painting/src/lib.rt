// Painting a history down to the commits that are shared, and what is left of those once no other reaches them.
#![tactic(auto)]

mod descent;
mod entries;
mod listing;
mod marks;
mod paint;
mod painter;
mod places;
mod redundant;
mod seed;

pub use listing::{first_best, list_best};
pub use paint::{paint_down_to_common, paint_from_places};
pub use places::Places;
pub use redundant::remove_redundant;
