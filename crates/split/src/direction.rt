//! The two directions of a split, and what sets them apart: their latencies.
ghost use Rattle.std.specs.Prelude.{◌≡◌};
ghost use Rattle.split.specs.Directions.{latency, most_clocks};

use clock::{Clock, Latency};

/// Which way the bytes of a frame go.
#[derive(Clone, Copy, Debug, PartialEq, Eq)]
pub enum Direction {
    Read,
    Write,
}

impl Direction {
    /// The latency that a clock needs: LC for reads, WL for writes.
    pub fn latency(self, clock: &Clock) -> Latency
        ensures { result ≡ latency self clock.now.lc clock.now.wl }
    {
        match self {
            Direction::Read => clock.lc,
            Direction::Write => clock.wl,
        }
    }

    /// The most clocks that a frame waits: a read may take 2 LC.
    pub fn most_clocks(self, latency: Latency) -> u32
        ensures { result ≡ most_clocks self latency }
    {
        match self {
            Direction::Read => 2 * latency.clocks(),
            Direction::Write => latency.clocks(),
        }
    }
}
