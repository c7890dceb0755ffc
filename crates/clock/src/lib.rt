//! Clock numbers: how many clocks the times of the data sheets are.
#![tactic(auto)]

mod numbers;
mod range;

pub use numbers::Clock;
pub use range::{Latency, TemperatureRange};
