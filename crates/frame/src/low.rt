//! How many clocks CE# is low.
ghost use Rattle.std.specs.Prelude.{◌≡◌};
ghost use Rattle.frame.specs.Low.{low_clocks, low_clocks_of, saturated};

use clock::Latency;

/// What one frame carries, with its latency.
#[derive(Clone, Copy, Debug, PartialEq, Eq)]
pub enum Transfer {
    /// This many bytes, after a latency of LC to 2 LC clocks.
    Read { latency: u32, bytes: usize },
    /// This many bytes, after WL.
    Write { latency: Latency, bytes: usize },
    /// One register, after LC.
    RegisterRead { latency: Latency },
    RegisterWrite,
    GlobalReset,
}

impl Transfer {
    /// The clocks that CE# is low: three for the opening bytes, the latency, and one for each two
    /// bytes. A register write has a latency of 1; a global reset takes four in all.
    pub fn low_clocks(self) -> u64
        ensures { result ≡ low_clocks self }
    {
        match self {
            Transfer::Read { latency, bytes } => 3
                + u64::from(latency)
                + (bytes as u64).div_ceil(2),
            Transfer::Write { latency, bytes } => 3
                + u64::from(latency.clocks())
                + (bytes as u64).div_ceil(2),
            Transfer::RegisterRead { latency } => 3 + u64::from(latency.clocks()) + 1,
            Transfer::RegisterWrite => 3 + 1 + 1,
            Transfer::GlobalReset => 4,
        }
    }
}

/// The sum of the low clocks of these frames. It stays at 2^64 - 1.
pub fn low_clocks_of(frames: &[Transfer]) -> u64
    ensures { result ≡ saturated (low_clocks_of frames.now) }
{
    let mut sum = 0u64;
    for frame in frames {
        sum = sum.saturating_add(frame.low_clocks());
    }
    sum
}
