//! The mode registers: what their values mean, which values are reserved, and what each make holds.
#![tactic(auto)]

mod fields;
mod table;

pub use fields::{CacheLine, Coverage, LatencyType, Mr0, Mr4, Mr8, on_wire};
pub use table::{accepts, after_reset, readable, writable};
