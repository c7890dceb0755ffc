//! Frames on the octal bus: their opening bytes, where their bytes lie, and how long CE# is low.
#![tactic(auto)]

mod burst;
mod command;
mod low;
mod make;
mod span;

pub use burst::{Block, Burst};
pub use command::Command;
pub use low::{Transfer, low_clocks_of};
pub use make::Make;
pub use span::Span;
