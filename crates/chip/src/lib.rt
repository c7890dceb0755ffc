//! What a chip is: its meaning, what refuses a frame, what a frame and a reset do to it, and the
//! questions that it answers; what is true of every run of frames and resets, and of every chain
//! of frames.
#![tactic(auto)]

mod bus_frame;
mod config;
mod exchanges;
mod interface;
mod state;

pub use bus_frame::{Frame, Reply};
pub use config::{Config, SCRATCH};
pub use exchanges::{Outcome, exchange, exchange_soonest};
pub use interface::{Chip, Exact};
pub use state::{Phase, State};
