// For our own crates alone: what the calls are made of. Each function, but for the questions of a `LegalSource`, requires what its callers
// show: a network that is legal, lent memory that suffices and, for dates, a matrix that was closed. No call on the front page requires anything.
pub use crate::closing::close;
pub use crate::cycle::ClosingEdge;
pub use crate::dates::date_points;
pub use crate::legal::LegalSource;
pub use crate::link::Link;
pub use crate::tightening::tighten_legal;
