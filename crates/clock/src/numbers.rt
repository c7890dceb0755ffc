//! The clock numbers of a clock and a temperature range.
ghost use Rattle.std.specs.Prelude.{◌≡◌, ◌*◌, ◌<◌, ◌≤◌};
ghost use Rattle.clock.specs.Times.{tcph_ns, trc_ns, trst_ns, tpu_ns, trp_ns, tcem_ns, latency, least_tcem, whole, started};

use crate::range::{Latency, TemperatureRange};
use fault::Refusal;

// Times that both data sheets give.
const TCPH_NS: u64 = 18;

const TRC_NS: u64 = 60;

const TRST_NS: u64 = 2_000;

const TPU_NS: u64 = 150_000;

const TRP_NS: u64 = 1_000;

/// Times of the data sheets as numbers of clocks.
#[derive(Clone, Copy, Debug, PartialEq, Eq)]
pub struct Clock {
    /// The clock in kHz: 1 to 133,000.
    pub khz: u32,
    pub range: TemperatureRange,
    /// LC, the latency of reads that this clock needs.
    pub lc: Latency,
    /// WL, the latency of writes that this clock needs.
    pub wl: Latency,
    /// tCEM: the most clocks that CE# may be low.
    pub tcem: u32,
    /// tCPH: the least clocks that CE# is high between frames.
    pub tcph: u32,
    /// tRC: the least clocks from the start of one frame to the start of the next.
    pub trc: u32,
    /// tRST: the wait after wake or reset, in clocks.
    pub trst: u32,
    /// tPU: the wait before wake, in clocks.
    pub tpu: u32,
    /// tRP: the least length of a reset pulse, in clocks.
    pub trp: u32,
    ghost runs: { 0 < khz },
    ghost capped: { khz ≤ 133000 },
    ghost reads: { lc ≡ latency khz },
    ghost writes: { wl ≡ latency khz },
    ghost low: { tcem ≡ whole (tcem_ns range) khz },
    ghost high: { tcph ≡ started tcph_ns khz },
    ghost cycle: { trc ≡ started trc_ns khz },
    ghost settles: { trst ≡ started trst_ns khz },
    ghost powers: { tpu ≡ started tpu_ns khz },
    ghost pulses: { trp ≡ started trp_ns khz },
    ghost roomy: { least_tcem (latency khz) ≤ tcem },
}

// The clocks that fit whole into a time.
fn whole(ns: u64, khz: u32) -> u32
    requires short { ns ≤ 150000 }
    requires capped { khz ≤ 133000 }
    ensures { result ≡ whole ns khz }
{
    (ns * u64::from(khz) / 1_000_000) as u32
}

// The clocks that a time takes up, the last perhaps in part.
fn started(ns: u64, khz: u32) -> u32
    requires short { ns ≤ 150000 }
    requires capped { khz ≤ 133000 }
    ensures { result ≡ started ns khz }
{
    (ns * u64::from(khz)).div_ceil(1_000_000) as u32
}

impl Clock {
    ghost use Rattle.std.specs.Prelude.{◌↔◌, Some, None, IsOk, IfOk, IfErr, IsTrue};
    ghost use Rattle.clock.specs.Made.{refused, IsClockFor, LastsAtMost, period, IsNearest};

    /// The numbers of a clock in kHz and a temperature range.
    ///
    /// # Errors
    /// `ClockOutOfRange` where the clock is 0 or above 133,000 kHz, then `ClockTooSlow` where tCEM
    /// is less than 35 + 2 LC clocks.
    pub fn new(khz: u32, range: TemperatureRange) -> Result<Clock, Refusal>
        ensures taken { IsOk result ↔ (refused khz range ≡ None) }
        ensures ok { IfOk result (IsClockFor khz range) }
        ensures refused { IfErr result (λ e. refused khz range ≡ Some e) }
    {
        if khz == 0 || khz > 133_000 {
            return Err(Refusal::ClockOutOfRange);
        }
        let latency = Latency::at(khz);
        let tcem = whole(range.tcem_ns(), khz);
        if tcem < 35 + 2 * latency.clocks() {
            return Err(Refusal::ClockTooSlow);
        }
        Ok(Clock {
            khz,
            range,
            lc: latency,
            wl: latency,
            tcem,
            tcph: started(TCPH_NS, khz),
            trc: started(TRC_NS, khz),
            trst: started(TRST_NS, khz),
            tpu: started(TPU_NS, khz),
            trp: started(TRP_NS, khz),
        })
    }

    /// Whether a frame of so many low clocks keeps tCEM.
    pub fn keeps_tcem(&self, low: u64) -> bool
        ensures value { IsTrue result ↔ (low ≤ self.now.tcem) }
        ensures lasts { IsTrue result ↔ LastsAtMost low self.now.khz (tcem_ns self.now.range) }
    {
        low <= u64::from(self.tcem)
    }

    /// The period in picoseconds, to the nearest, a half up.
    pub fn period(&self) -> u32
        ensures value { result ≡ period self.now.khz }
        ensures nearest { IsNearest self.now.khz result }
    {
        (2_000_000_000 + self.khz) / (2 * self.khz)
    }
}
