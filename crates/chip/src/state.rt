//! What changes of a chip apart from its bytes, and the gap that it needs before a frame.

ghost use Rattle.std.specs.Prelude.{◌≡◌};

use crate::config::Config;

/// A chip takes only a global reset until it is woken, and then everything else.
#[derive(Clone, Copy, Debug, PartialEq, Eq)]
pub enum Phase {
    Unwoken,
    Awake,
}

/// What changes of a chip, apart from its bytes.
#[derive(Clone, Copy, Debug, PartialEq, Eq)]
pub struct State {
    pub mr0: u8,
    pub mr4: u8,
    pub mr8: u8,
    pub phase: Phase,
    /// The strobe DQS comes with reads.
    pub strobe: bool,
    /// The wait tRST after wake or reset is due.
    pub trst_due: bool,
    /// The low clocks of the latest frame.
    pub latest_low: u64,
    /// The frames since the wake frame; stays at 2^64 - 1.
    pub frames: u64,
    /// The sum of the low clocks of these frames; stays at 2^64 - 1.
    pub clocks: u64,
}

impl State {
    ghost use Rattle.chip.specs.Refused.{power_up, wait_due, least_gap};

    /// The wait before the next frame, in clocks: tRST after wake or reset, tPU before wake.
    fn wait_due(&self, config: &Config) -> u32
        ensures { result ≡ wait_due config.now self.now }
    {
        let trst = if self.trst_due { config.clock.trst } else { 0 };
        match self.phase {
            Phase::Unwoken => trst.max(config.clock.tpu),
            Phase::Awake => trst,
        }
    }

    /// The least gap before the next frame, in clocks with CE# high: tCPH, tRC less the latest low
    /// clocks, and the wait that is due.
    pub fn least_gap(&self, config: &Config) -> u32
        ensures { result ≡ least_gap config.now self.now }
    {
        let clock = &config.clock;
        let cycle = u64::from(clock.trc).saturating_sub(self.latest_low) as u32;
        clock.tcph.max(cycle).max(self.wait_due(config))
    }
}
