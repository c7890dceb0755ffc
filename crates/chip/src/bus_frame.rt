//! One frame: what refuses it, how long it is low, and what of it is on the wire.

ghost use Rattle.std.specs.Prelude.{◌≡◌, ◌↔◌, ℕ, None, Some, IsOk, IfErr, nat_lt};

use crate::config::Config;
use crate::state::State;
use fault::{Fault, Refusal};
use frame::{Burst, Command, Transfer};
use register::{Mr0, Mr4, accepts, readable};

/// One frame. A read has as many bytes as the buffer that it fills. A register goes by its number
/// on the wire, which may be any byte.
#[derive(Clone, Copy, Debug, PartialEq, Eq)]
pub enum Frame<'a> {
    Read {
        burst: Burst,
        start: u32,
    },
    Write {
        burst: Burst,
        start: u32,
        data: &'a [u8],
        mask: &'a [u8],
    },
    RegisterRead {
        number: u8,
    },
    RegisterWrite {
        number: u8,
        value: u8,
    },
    GlobalReset,
}

/// What a frame that was taken answers.
#[derive(Clone, Copy, Debug, PartialEq, Eq)]
pub enum Reply {
    Done,
    /// The value of the register that was read.
    Register(u8),
}

// What is asked of a frame before it is sent is inlined: where its kind is known, what concerns that
// kind alone is left.
impl Frame<'_> {
    ghost use Rattle.chip.specs.LowClocks.{transfer_of, low_for};
    ghost use Rattle.chip.specs.Refused.{bad_start, bad_count, too_long, bad_register, unfit};
    ghost use Rattle.chip.specs.Sent.{sent, place};
    ghost use Rattle.chip.specs.Wire.{command_of_frame, address_of_frame, frame_opening_bytes};
    ghost use Rattle.chip.specs.Wire.{Decodes, TakenHasOpening, SameOnTheWire};

    /// The place of a fault: the start of a memory frame, else 0.
    pub fn place(self) -> u32
        ensures { (n : ℕ) → result ≡ place (sent self.entry n) }
    {
        match self {
            Frame::Read { start, .. } | Frame::Write { start, .. } => start,
            Frame::RegisterRead { .. } | Frame::RegisterWrite { .. } | Frame::GlobalReset => 0,
        }
    }

    // Whether it is a memory frame that starts at an odd address, or at or past the size.
    #[inline(always)]
    fn bad_start(self, config: &Config) -> bool
        ensures { (n : ℕ) → result ≡ bad_start config.now (sent self.entry n) }
    {
        match self {
            Frame::Read { start, .. } | Frame::Write { start, .. } => {
                start % 2 == 1 || start >= config.size()
            }
            Frame::RegisterRead { .. } | Frame::RegisterWrite { .. } | Frame::GlobalReset => false,
        }
    }

    // Whether it has no bytes, or is a write of an odd number of bytes or unlike its mask.
    #[inline(always)]
    fn bad_count(self, room: usize) -> bool
        ensures { result ≡ bad_count (sent self.entry room) }
    {
        match self {
            Frame::Read { .. } => room == 0,
            Frame::Write { data, mask, .. } => data.is_empty()
                || data.len() % 2 == 1
                || mask.len() != mask::size(data.len()),
            Frame::RegisterRead { .. } | Frame::RegisterWrite { .. } | Frame::GlobalReset => false,
        }
    }

    // What goes over the bus, a memory read with this latency.
    #[inline(always)]
    fn transfer(self, state: &State, room: usize, latency: u32) -> Transfer
        ensures { result ≡ transfer_of state.now (sent self.entry room) latency }
    {
        match self {
            Frame::Read { .. } => Transfer::Read {
                latency,
                bytes: room,
            },
            Frame::Write { data, .. } => Transfer::Write {
                latency: Mr4::from(state.mr4).wl,
                bytes: data.len(),
            },
            Frame::RegisterRead { .. } => Transfer::RegisterRead {
                latency: Mr0::from(state.mr0).lc,
            },
            Frame::RegisterWrite { .. } => Transfer::RegisterWrite,
            Frame::GlobalReset => Transfer::GlobalReset,
        }
    }

    /// How many clocks CE# is low for it, a memory read with this latency. A read has as many bytes
    /// as its buffer has room.
    #[inline(always)]
    pub fn low_clocks(self, config: &Config, state: &State, room: usize, latency: u32) -> u64
        ensures { result ≡ low_for config.now state.now (sent self.entry room) latency }
    {
        self.transfer(state, room, latency).low_clocks()
    }

    // Whether CE# would be low for longer than tCEM, a memory read counted with 2 LC.
    #[inline(always)]
    fn too_long(self, config: &Config, state: &State, room: usize) -> bool
        ensures { result ≡ too_long config.now state.now (sent self.entry room) }
    {
        let latency = 2 * Mr0::from(state.mr0).lc.clocks();
        self.low_clocks(config, state, room, latency) > config.most_low_clocks()
    }

    // Whether the register cannot be read, or written with this value.
    #[inline(always)]
    fn bad_register(self) -> bool
        ensures { (n : ℕ) → result ≡ bad_register (sent self.entry n) }
    {
        match self {
            Frame::RegisterRead { number } => !readable(number),
            Frame::RegisterWrite { number, value } => !accepts(number, value),
            Frame::Read { .. } | Frame::Write { .. } | Frame::GlobalReset => false,
        }
    }

    /// What refuses a frame that the phase takes: the first of 14, 15, 16, 17 and 18 that applies,
    /// if any does. 13 is the chip's.
    #[inline(always)]
    #[tactic(auto, unfolding(crate::specs::Refused::first_refusal))]
    pub fn judge(self, config: &Config, state: &State, gap: u32, room: usize) -> Result<(), Fault>
        ensures fit { IsOk result ↔ (unfit config.now state.now gap (sent self.entry room) ≡ None) }
        ensures refused { IfErr result (λ e.
            unfit config.now state.now gap (sent self.entry room) ≡ Some e.refusal) }
        ensures place { IfErr result (λ e. e.place ≡ place (sent self.entry room)) }
    {
        let refusal = if gap < state.least_gap(config) {
            Refusal::TooSoon
        } else if self.bad_start(config) {
            Refusal::BadStart
        } else if self.bad_count(room) {
            Refusal::BadCount
        } else if self.too_long(config, state, room) {
            Refusal::TooLong
        } else if self.bad_register() {
            Refusal::BadRegister
        } else {
            return Ok(());
        };
        Err(refusal.at(self.place()))
    }

    // The command of this frame, and the address that its opening bytes carry.
    fn command(self) -> (Command, u32)
        ensures command { (n : ℕ) → result.0 ≡ command_of_frame (sent self.entry n) }
        ensures address { (n : ℕ) → result.1 ≡ address_of_frame (sent self.entry n) }
    {
        match self {
            Frame::Read {
                burst: Burst::Linear,
                start,
            } => (Command::LinearRead, start),
            Frame::Read { start, .. } => (Command::Read, start),
            Frame::Write {
                burst: Burst::Linear,
                start,
                ..
            } => (Command::LinearWrite, start),
            Frame::Write { start, .. } => (Command::Write, start),
            Frame::RegisterRead { number } => (Command::RegisterRead, u32::from(number)),
            Frame::RegisterWrite { number, .. } => (Command::RegisterWrite, u32::from(number)),
            Frame::GlobalReset => (Command::GlobalReset, 0),
        }
    }

    /// The five bytes that open this frame on the wire. None where the start does not fit; no chip
    /// takes such a frame.
    pub fn opening_bytes(self) -> Option<[u8; 5]>
        ensures value { (n : ℕ) → result ≡ frame_opening_bytes (sent self.entry n) }
        ensures decodes { (n : ℕ) → Decodes result (command_of_frame (sent self.entry n))
            (address_of_frame (sent self.entry n)) }
        ensures taken_has_opening { TakenHasOpening }
        ensures same_on_the_wire { SameOnTheWire }
    {
        let (command, address) = self.command();
        command.opening_bytes(address)
    }
}
