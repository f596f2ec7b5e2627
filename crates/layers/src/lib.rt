// Layers over any source: its hulls, a selection of its windows, and a selection made in part.
#![tactic(auto)]

mod chosen;
mod hull;
mod layer;
mod selected;

pub use chosen::Chosen;
pub use hull::Hull;
pub use selected::Selected;
