//! What a model is made of, and what it does at a frame and at a reset.

ghost use Rattle.std.specs.Prelude.{◌≡◌, ◌↔◌, ℕ, ◌+◌, ◌<◌, length, if◌then◌else◌, vec_len, IsTrue};
ghost use Rattle.chip.specs.LowClocks.{low_for};
ghost use Rattle.chip.specs.Meaning.{size, RefreshesAll};
ghost use Rattle.chip.specs.Sent.{sent, read, resetting, send_event};
ghost use Rattle.chip.specs.Taken.{address, counted, register, with_register};

use crate::unwoken::{reset_value, unwoken_state};
use chip::{Config, Frame, Phase, Reply, State};
use fault::{Fault, Refusal};
use frame::Burst;
use mask::masked;
use register::{Coverage, LatencyType, Mr0, on_wire};

/// A chip over a store of its size. The models of both makes are one of these.
#[derive(Drop)]
pub struct Device {
    pub config: Config,
    pub state: State,
    pub store: Vec<u8>,
    /// Bit k mod 32 is set where the k-th variable read meets a refresh.
    pub refresh_word: u32,
    /// After so many answered reads the strobe goes; 0 is never.
    pub strobe_count: u16,
    /// Variable reads since wake or reset, modulo 32.
    pub variable_reads: u32,
    /// Reads answered since wake or reset; stays at 2^32 - 1.
    pub answered_reads: u32,
    ghost whole: { vec_len store ≡ size config },
    ghost in_word: { variable_reads < 32 },
}

/// The strobe that the next frame comes with, and the latency of a read.
#[derive(Clone, Copy)]
struct NextFrame {
    /// The strobe is there once the frame has started.
    strobe: bool,
    /// It is a read of variable latency, and finds the strobe.
    variable: bool,
    /// The latency of a read, in clocks; 0 for a frame that is none.
    latency: u32,
}

impl Device {
    ghost use Rattle.model.specs.Contents.{contents, meaning};
    ghost use Rattle.model.specs.Fresh.{fresh};
    ghost use Rattle.model.specs.Latency.{strobe_stays, is_variable, latency};
    ghost use Rattle.model.specs.Step.{one_more_variable, one_more_answered, Exactly};
    ghost use Rattle.model.specs.Store.{written_store, burst_bytes};

    /// A chip over a store of its size, not woken yet.
    pub fn new(config: Config, store: Vec<u8>, refresh_word: u32, strobe_count: u16) -> Device
        requires { length store.items ≡ size config }
        ensures { contents result ≡ fresh config store.items refresh_word strobe_count }
    {
        Device {
            config,
            state: unwoken_state(config.make),
            store,
            refresh_word,
            strobe_count,
            variable_reads: 0,
            answered_reads: 0,
        }
    }

    /// Whether a coverage refreshes each of `count` addresses from `from` on.
    pub fn refreshed(&self, coverage: Coverage, from: u32, count: u32) -> bool
        ensures { IsTrue result ↔ RefreshesAll (meaning (contents self.now)) coverage from count }
    {
        let span = coverage.refreshed_span(self.config.size());
        let end = u64::from(from) + u64::from(count);
        count == 0 || (span.from <= from && end <= u64::from(span.to))
    }

    // Which strobe comes with the next frame, and which latency with a read: the strobe goes once as
    // many reads are answered as the strobe count says, and a variable read takes LC where its bit
    // of the refresh word is clear.
    fn next_frame(&self, frame: Frame<'_>) -> NextFrame
        ensures strobe { result.strobe ≡ strobe_stays (contents self.now) }
        ensures variable { (b : Burst) (a n : ℕ) → sent frame.entry n ≡ read b a n
            → result.variable ≡ is_variable (contents self.now) }
        ensures low { (n : ℕ)
            → low_for self.now.config self.now.state (sent frame.entry n) result.latency
            ≡ low_for self.now.config self.now.state (sent frame.entry n)
            (latency (contents self.now)) }
    {
        let strobe = self.state.strobe
            && (self.strobe_count == 0 || self.answered_reads < u32::from(self.strobe_count));
        match frame {
            Frame::Read { .. } => {
                let mr0 = Mr0::from(self.state.mr0);
                let variable = strobe && matches!(mr0.latency_type, LatencyType::Variable);
                let least = mr0.lc.clocks();
                let meets_refresh = (self.refresh_word >> self.variable_reads) & 1 == 1;
                let latency = if variable && !meets_refresh {
                    least
                } else {
                    2 * least
                };
                NextFrame {
                    strobe,
                    variable,
                    latency,
                }
            }
            Frame::Write { .. }
            | Frame::RegisterRead { .. }
            | Frame::RegisterWrite { .. }
            | Frame::GlobalReset => NextFrame {
                strobe,
                variable: false,
                latency: 0,
            },
        }
    }

    // Counts a frame of so many low clocks, with the strobe as it is after it; no wait is due any
    // more.
    fn count(&mut self, low: u64, strobe: bool)
        ensures { contents self.new
            ≡ record (contents self.old) { state = counted self.old.state low strobe } }
    {
        self.state.strobe = strobe;
        self.state.trst_due = false;
        self.state.latest_low = low;
        self.state.frames = self.state.frames.saturating_add(1);
        self.state.clocks = self.state.clocks.saturating_add(low);
    }

    // Counts a read that is answered, of variable latency or not.
    fn count_read(&mut self, variable: bool)
        ensures { contents self.new ≡ record (contents self.old) {
          variable_reads = one_more_variable (contents self.old) variable;
          answered_reads = one_more_answered (contents self.old);
        } }
    {
        if variable {
            self.variable_reads = (self.variable_reads + 1) % 32;
        }
        self.answered_reads = self.answered_reads.saturating_add(1);
    }

    // The address of byte `i` of a burst, as it is on the wire.
    fn address(&self, burst: Burst, start: u32, i: usize) -> usize
        ensures value { result ≡ address self.now.config self.now.state burst start i }
        ensures within { start < size self.now.config → result < size self.now.config }
    {
        on_wire(burst, self.state.mr8).address(self.config.make, start, i) as usize
    }

    // Fills a buffer with the bytes of a burst.
    fn fill(&self, burst: Burst, start: u32, buffer: &mut [u8])
        requires { start < size self.now.config }
        ensures { buffer.new ≡ burst_bytes (contents self.now) burst start (length buffer.old) }
    {
        for (i, byte) in buffer.iter_mut().enumerate() {
            *byte = self.store[self.address(burst, start, i)];
        }
    }

    // Stores the unmasked bytes of a write.
    fn put(&mut self, burst: Burst, start: u32, data: &[u8], mask: &[u8])
        requires { start < size self.old.config }
        ensures { contents self.new ≡ record (contents self.old) {
          store = written_store (address self.old.config self.old.state burst start) «data».now
              mask.now (length «data».now) self.old.store.items;
        } }
    {
        for (i, byte) in data.iter().enumerate() {
            let address = self.address(burst, start, i);
            if !masked(mask, i) {
                self.store[address] = *byte;
            }
        }
    }

    // What a register holds.
    fn register(&self, number: u8) -> u8
        ensures { result ≡ register self.now.config self.now.state number }
    {
        match number {
            0 => self.state.mr0,
            4 => self.state.mr4,
            8 => self.state.mr8,
            _ => reset_value(self.config.make, number),
        }
    }

    // Sets a register that can be written.
    fn set_register(&mut self, number: u8, value: u8)
        ensures { contents self.new
            ≡ record (contents self.old) { state = with_register self.old.state number value } }
    {
        match number {
            0 => self.state.mr0 = value,
            4 => self.state.mr4 = value,
            8 => self.state.mr8 = value,
            _ => {}
        }
    }

    /// Sends one frame: what it does depends on the phase and the frame together.
    pub fn send(&mut self, gap: u32, frame: Frame<'_>, buffer: &mut [u8]) -> Result<Reply, Fault>
        ensures { Exactly (contents self.old)
            (send_event gap frame.entry buffer.old result buffer.new) (contents self.new) }
    {
        let room = buffer.len();
        let next = self.next_frame(frame);
        // 14 to 18 are asked for where the phase takes the frame, so that 13 goes first
        match (self.state.phase, frame) {
            // the registers are those of the table, and counting begins
            (Phase::Unwoken, Frame::GlobalReset) => {
                frame.judge(&self.config, &self.state, gap, room)?;
                let low = frame.low_clocks(&self.config, &self.state, room, next.latency);
                self.state = State {
                    phase: Phase::Awake,
                    strobe: next.strobe,
                    trst_due: true,
                    latest_low: low,
                    ..unwoken_state(self.config.make)
                };
                self.variable_reads = 0;
                self.answered_reads = 0;
                Ok(Reply::Done)
            }
            (Phase::Awake, Frame::Read { burst, start }) => {
                frame.judge(&self.config, &self.state, gap, room)?;
                let low = frame.low_clocks(&self.config, &self.state, room, next.latency);
                self.count(low, next.strobe);
                if !next.strobe {
                    return Err(Refusal::NoStrobe(0).at(start));
                }
                self.fill(burst, start, buffer);
                self.count_read(next.variable);
                Ok(Reply::Done)
            }
            (
                Phase::Awake,
                Frame::Write {
                    burst,
                    start,
                    data,
                    mask,
                },
            ) => {
                frame.judge(&self.config, &self.state, gap, room)?;
                let low = frame.low_clocks(&self.config, &self.state, room, next.latency);
                self.count(low, next.strobe);
                self.put(burst, start, data, mask);
                Ok(Reply::Done)
            }
            (Phase::Awake, Frame::RegisterRead { number }) => {
                frame.judge(&self.config, &self.state, gap, room)?;
                let low = frame.low_clocks(&self.config, &self.state, room, next.latency);
                self.count(low, next.strobe);
                if !next.strobe {
                    return Err(Refusal::NoStrobe(0).at(0));
                }
                self.count_read(false);
                Ok(Reply::Register(self.register(number)))
            }
            (Phase::Awake, Frame::RegisterWrite { number, value }) => {
                frame.judge(&self.config, &self.state, gap, room)?;
                let low = frame.low_clocks(&self.config, &self.state, room, next.latency);
                self.count(low, next.strobe);
                self.set_register(number, value);
                Ok(Reply::Done)
            }
            (Phase::Unwoken, _) | (Phase::Awake, Frame::GlobalReset) => {
                Err(Refusal::WrongPhase.at(frame.place()))
            }
        }
    }

    /// Resets by a pulse on RESET#: the registers are those of the table, the strobe is there, and
    /// reads are counted anew.
    pub fn reset(&mut self, pulse: u32) -> Result<(), Fault>
        ensures { Exactly (contents self.old) (resetting pulse result) (contents self.new) }
    {
        match self.state.phase {
            Phase::Unwoken => Err(Refusal::WrongPhase.at(0)),
            Phase::Awake if pulse < self.config.clock.trp => Err(Refusal::TooSoon.at(0)),
            Phase::Awake => {
                let State { mr0, mr4, mr8, .. } = unwoken_state(self.config.make);
                self.state = State {
                    mr0,
                    mr4,
                    mr8,
                    strobe: true,
                    trst_due: true,
                    ..self.state
                };
                self.variable_reads = 0;
                self.answered_reads = 0;
                Ok(())
            }
        }
    }
}
