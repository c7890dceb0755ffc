//! Splitting a range of addresses into pieces, one for each frame.
#![tactic(auto)]

mod direction;
mod frames;
mod pieces;
mod splitter;

pub use direction::Direction;
pub use frames::{frames_of, rounded_span};
pub use pieces::Pieces;
pub use splitter::Splitter;
