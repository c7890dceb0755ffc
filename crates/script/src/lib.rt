//! The bytes of a script: its opening, and the commands that follow it, one by one and as a list.
#![tactic(auto)]

mod command;
mod listing;
mod opening;
mod reader;

pub use command::Command;
pub use listing::{Placed, list, read};
pub use opening::{LONGEST, Opening, Stack};
