//! Temperature ranges, and the latencies that a clock needs.
ghost use Rattle.std.specs.Prelude.{◌≡◌, ◌≤◌, Some, [], ◌∷◌};
ghost use Rattle.clock.specs.Letters.{letter};
ghost use Rattle.clock.specs.Times.{tcem_ns, latency, clocks};
ghost use Rattle.fault.specs.Names.{Named};

use fault::Unknown;
use std::fmt;

/// The temperature range that a chip is used in. It sets tCEM: 4,000 ns in the normal range,
/// 1,000 ns in the extended one.
#[derive(Clone, Copy, Debug, PartialEq, Eq)]
pub enum TemperatureRange {
    Normal,
    Extended,
}

/// A latency in clocks, of reads (LC) or of writes (WL).
#[derive(Clone, Copy, Debug, PartialEq, Eq)]
pub enum Latency {
    Three = 3,
    Four = 4,
    Five = 5,
}

impl TryFrom<char> for TemperatureRange {
    type Error = Unknown<char>;

    ghost try_from_gives = { Named letter };

    fn try_from(letter: char) -> Result<TemperatureRange, Unknown<char>> {
        match letter {
            'N' => Ok(TemperatureRange::Normal),
            'X' => Ok(TemperatureRange::Extended),
            _ => Err(Unknown(letter)),
        }
    }
}

impl fmt::Display for TemperatureRange {
    ghost output = { λ r. Some (letter r ∷ []) };

    fn fmt<W: fmt::Write>(&self, f: &mut fmt::Formatter<W>) -> fmt::Result {
        f.write_str(match self {
            TemperatureRange::Normal => "N",
            TemperatureRange::Extended => "X",
        })
    }
}

impl TemperatureRange {
    // tCEM in nanoseconds.
    pub(crate) fn tcem_ns(self) -> u64
        ensures { result ≡ tcem_ns self }
    {
        match self {
            TemperatureRange::Normal => 4_000,
            TemperatureRange::Extended => 1_000,
        }
    }
}

impl Latency {
    // The latency that a clock in kHz needs, for reads and for writes.
    pub(crate) fn at(khz: u32) -> Latency
        ensures { result ≡ latency khz }
    {
        if khz <= 66_000 {
            Latency::Three
        } else if khz <= 109_000 {
            Latency::Four
        } else {
            Latency::Five
        }
    }

    /// The latency as a number of clocks.
    pub fn clocks(self) -> u32
        ensures { result ≡ clocks self }
    {
        self as u32
    }
}
