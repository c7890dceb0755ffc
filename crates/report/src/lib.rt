//! The lines of the report, and the commands of a script in words.
#![tactic(auto)]

mod first;
mod hex;
mod line;
mod refused;
mod words;

pub use first::{FirstLine, first_line};
pub use hex::{Address, HexByte, HexBytes, digits};
pub use line::Line;
pub use refused::Refused;
pub use words::{Listing, Words};
