//! The fields of the mode registers: from the values of the registers to what they mean, and back.
ghost use Rattle.std.specs.Prelude.{◌≡◌, ◌<◌, ◌≤◌};
ghost use Rattle.register.specs.Registers.{bits, mr0, mr4, mr8, on_wire, refreshed_span, bottom, top};
ghost use Rattle.register.specs.Codes.{read_code, write_code};
ghost use Rattle.register.specs.Registers.{mr0_value, mr4_value, mr8_value};
ghost use Rattle.register.specs.Written.{WritesMr0, WritesMr4, WritesMr8};

use clock::{Clock, Latency};
use frame::{Block, Burst, Span};

/// Whether a read's latency may vary from LC to 2 LC, or is always 2 LC.
#[derive(Clone, Copy, Debug, PartialEq, Eq)]
pub enum LatencyType {
    Variable = 0,
    Fixed = 1,
}

/// MR0: the latency of reads, and the code of the drive strength, 0 to 3.
#[derive(Clone, Copy, Debug, PartialEq, Eq)]
pub struct Mr0 {
    pub latency_type: LatencyType,
    pub lc: Latency,
    pub drive: u8,
}

/// Which part of the array is refreshed (PASR).
#[derive(Clone, Copy, Debug, PartialEq, Eq)]
pub enum Coverage {
    All = 0,
    BottomHalf = 1,
    BottomQuarter = 2,
    BottomEighth = 3,
    Nothing = 4,
    TopHalf = 5,
    TopQuarter = 6,
    TopEighth = 7,
}

/// MR4: the latency of writes, and the coverage.
#[derive(Clone, Copy, Debug, PartialEq, Eq)]
pub struct Mr4 {
    pub wl: Latency,
    pub coverage: Coverage,
}

/// MR8: the burst of a memory frame that is not linear.
#[derive(Clone, Copy, Debug, PartialEq, Eq)]
pub struct Mr8 {
    pub burst: Burst,
}

/// A cache line that a fill reads.
#[derive(Clone, Copy, Debug, PartialEq, Eq)]
pub enum CacheLine {
    Bytes16,
    Bytes32,
    Bytes64,
}

// The bits from `high` down to `low` of a value.
#[tactic(auto, using(crate::proofs::Bits::shifted_and_masked))]
pub(crate) fn bits(value: u8, high: u32, low: u32) -> u8
    requires order { low ≤ high }
    requires most { high < 8 }
    ensures { result ≡ bits value high low }
{
    (value >> low) & (0xff >> (7 + low - high))
}

// The code in MR0 of a latency of reads.
fn read_code(lc: Latency) -> u8
    ensures { result ≡ read_code lc }
{
    match lc {
        Latency::Three => 0b000,
        Latency::Four => 0b001,
        Latency::Five => 0b010,
    }
}

// The code in MR4 of a latency of writes.
fn write_code(wl: Latency) -> u8
    ensures { result ≡ write_code wl }
{
    match wl {
        Latency::Three => 0b000,
        Latency::Four => 0b100,
        Latency::Five => 0b010,
    }
}

/// What a value of MR0 means. A reserved read code reads as latency 5, and bits without a name
/// count for nothing.
impl From<u8> for Mr0 {
    ghost from_gives = { λ v r. r ≡ mr0 v };

    #[tactic(auto, unfolding(crate::specs::Codes::read_latency))]
    fn from(value: u8) -> Mr0 {
        Mr0 {
            latency_type: match bits(value, 5, 5) {
                0 => LatencyType::Variable,
                _ => LatencyType::Fixed,
            },
            lc: match bits(value, 4, 2) {
                0b000 => Latency::Three,
                0b001 => Latency::Four,
                _ => Latency::Five,
            },
            drive: bits(value, 1, 0),
        }
    }
}

impl Mr0 {
    /// The value of MR0 for a clock, a latency type and a drive code, of which the low two bits
    /// are taken.
    #[tactic(auto, using(crate::proofs::Bits::fields_of_mr0))]
    pub fn value(clock: &Clock, latency_type: LatencyType, drive: u8) -> u8
        ensures value { result ≡ mr0_value clock.now.lc latency_type drive }
        ensures writes { WritesMr0 clock.now.lc latency_type drive result }
    {
        ((latency_type as u8) << 5) | (read_code(clock.lc) << 2) | bits(drive, 1, 0)
    }
}

/// What a value of MR4 means. A reserved write code reads as latency 5, and bits without a name
/// count for nothing.
impl From<u8> for Mr4 {
    ghost from_gives = { λ v r. r ≡ mr4 v };

    #[tactic(auto, unfolding(crate::specs::Codes::write_latency, crate::specs::Codes::coverage_of))]
    fn from(value: u8) -> Mr4 {
        Mr4 {
            wl: match bits(value, 7, 5) {
                0b000 => Latency::Three,
                0b100 => Latency::Four,
                _ => Latency::Five,
            },
            coverage: match bits(value, 2, 0) {
                0 => Coverage::All,
                1 => Coverage::BottomHalf,
                2 => Coverage::BottomQuarter,
                3 => Coverage::BottomEighth,
                4 => Coverage::Nothing,
                5 => Coverage::TopHalf,
                6 => Coverage::TopQuarter,
                _ => Coverage::TopEighth,
            },
        }
    }
}

impl Mr4 {
    /// The value of MR4 for a clock and a coverage.
    #[tactic(auto, using(crate::proofs::Bits::fields_of_mr4))]
    pub fn value(clock: &Clock, coverage: Coverage) -> u8
        ensures value { result ≡ mr4_value clock.now.wl coverage }
        ensures writes { WritesMr4 clock.now.wl coverage result }
    {
        (write_code(clock.wl) << 5) | coverage as u8
    }
}

// A part of the size at its bottom.
fn bottom(size: u32, divisor: u32) -> Span
    requires { 0 < divisor }
    ensures { result ≡ bottom size divisor }
{
    Span {
        from: 0,
        to: size / divisor,
    }
}

// A part of the size at its top.
fn top(size: u32, divisor: u32) -> Span
    requires { 0 < divisor }
    ensures { result ≡ top size divisor }
{
    Span {
        from: size - size / divisor,
        to: size,
    }
}

impl Coverage {
    /// The addresses that are refreshed, of a size in bytes.
    pub fn refreshed_span(self, size: u32) -> Span
        ensures { result ≡ refreshed_span self size }
    {
        match self {
            Coverage::All => bottom(size, 1),
            Coverage::BottomHalf => bottom(size, 2),
            Coverage::BottomQuarter => bottom(size, 4),
            Coverage::BottomEighth => bottom(size, 8),
            Coverage::Nothing => Span { from: 0, to: 0 },
            Coverage::TopHalf => top(size, 2),
            Coverage::TopQuarter => top(size, 4),
            Coverage::TopEighth => top(size, 8),
        }
    }
}

/// What a value of MR8 means. Bits without a name count for nothing.
impl From<u8> for Mr8 {
    ghost from_gives = { λ v r. r.burst ≡ mr8 v };

    #[tactic(auto, unfolding(crate::specs::Codes::block_of))]
    fn from(value: u8) -> Mr8 {
        let block = match bits(value, 1, 0) {
            0 => Block::Bytes16,
            1 => Block::Bytes32,
            2 => Block::Bytes64,
            _ => Block::Page,
        };
        Mr8 {
            burst: match bits(value, 2, 2) {
                0 => Burst::Wrapped(block),
                _ => Burst::Hybrid(block),
            },
        }
    }
}

impl CacheLine {
    /// The value of MR8 for the wrapped read of a line.
    #[tactic(auto, unfolding(crate::specs::Codes::block_of))]
    pub fn mr8(self) -> u8
        ensures value { result ≡ mr8_value self }
        ensures writes { WritesMr8 self result }
    {
        match self {
            CacheLine::Bytes16 => 0x00,
            CacheLine::Bytes32 => 0x01,
            CacheLine::Bytes64 => 0x02,
        }
    }
}

/// The burst on the wire of a frame that carries `carried`: linear by its command, else what this
/// value of MR8 says.
pub fn on_wire(carried: Burst, mr8: u8) -> Burst
    ensures { result ≡ on_wire carried mr8 }
{
    match carried {
        Burst::Linear => Burst::Linear,
        Burst::Wrapped(_) | Burst::Hybrid(_) => Mr8::from(mr8).burst,
    }
}
