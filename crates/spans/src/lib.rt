// Spans: signed distances in time. A kind of spans is a type that implements `Span`; `Minutes` and `MinuteRank` are two.
#![tactic(auto)]

mod minutes;
mod pair;
mod span;

pub use minutes::Minutes;
pub use pair::{MinuteRank, Pair};
pub use span::{Ordered, REACH, Span};
