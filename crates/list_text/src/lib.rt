// List text of at most 65,536 bytes: read in place as exactly the network that it denotes, or turned away with the place of its fault.
// A longer one is turned away. And dates written as list text.
#![tactic(auto)]

mod bytes;
mod following;
mod lexer;
mod numbers;
mod reader;
mod rows;
mod source;
mod text;
mod token;
mod windows;
mod writing;

pub use text::ListText;
pub use writing::write_dates;
