// Networks: what a source of conditions means, rows as a source, and the refusals with their numbers.
#![tactic(auto)]

mod fault;
mod lent;
mod limits;
mod rows;
mod source;
mod window;

pub use fault::Fault;
pub use lent::Lent;
pub use limits::{
    LARGEST_END, MOST_CHOICES, MOST_CONDITIONS, MOST_ENTRIES, MOST_POINTS, MOST_WINDOWS,
};
pub use rows::{Row, Rows};
pub use source::{Source, by_reference};
pub use window::Window;
