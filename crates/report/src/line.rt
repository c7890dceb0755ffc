//! The lines of the report after the first, one for each command.
ghost use Rattle.std.specs.Prelude.{Some};
ghost use Rattle.report.specs.CommandLines.{cost_part, data_part, line};

use crate::hex::{Address, HexByte, HexBytes};
use crate::refused::Refused;
use fault::Fault;
use mask::masked_bytes;
use port::Traffic;
use std::fmt;

// What a command took: its frames, and the sum of their low clocks, with a blank before each.
#[derive(Clone, Copy, Debug, PartialEq, Eq)]
struct Cost(Traffic);

impl fmt::Display for Cost {
    ghost output = { λ c. Some (cost_part c.0) };

    fn fmt<W: fmt::Write>(&self, f: &mut fmt::Formatter<W>) -> fmt::Result {
        let Traffic { frames, clocks } = self.0;
        write!(f, " f={frames} c={clocks}")
    }
}

// The bytes from an address on, of a read or a fill: the address, how many, and the bytes.
#[derive(Clone, Copy, Debug, PartialEq, Eq)]
struct Bytes<'a> {
    address: u32,
    data: &'a [u8],
}

impl fmt::Display for Bytes<'_> {
    ghost output = { λ b. Some (data_part b.address b.«data».now) };

    fn fmt<W: fmt::Write>(&self, f: &mut fmt::Formatter<W>) -> fmt::Result {
        let data = self.data;
        write!(
            f,
            "{} {} {}",
            Address(self.address),
            data.len(),
            HexBytes(data)
        )
    }
}

/// What a command did and what it took, or its refusal. Types, coverages and registers are the
/// bytes of the script, which a line repeats as numbers.
#[derive(Clone, Copy, Debug, PartialEq, Eq)]
pub enum Line<'a> {
    Read {
        address: u32,
        data: &'a [u8],
        traffic: Traffic,
    },
    Write {
        address: u32,
        length: u16,
        mask: &'a [u8],
        traffic: Traffic,
    },
    Fill {
        address: u32,
        data: &'a [u8],
        traffic: Traffic,
    },
    LatencyType {
        value: u8,
        traffic: Traffic,
    },
    Coverage {
        code: u8,
        traffic: Traffic,
    },
    Register {
        number: u8,
        byte: u8,
        traffic: Traffic,
    },
    Reset {
        traffic: Traffic,
    },
    /// The place counts from behind the opening and its key.
    Refused(Fault<usize>),
}

impl fmt::Display for Line<'_> {
    ghost output = { λ l. Some (line l) };

    fn fmt<W: fmt::Write>(&self, f: &mut fmt::Formatter<W>) -> fmt::Result {
        match *self {
            Line::Read {
                address,
                data,
                traffic,
            } => write!(f, "R {}{}", Bytes { address, data }, Cost(traffic)),
            Line::Write {
                address,
                length,
                mask,
                traffic,
            } => {
                // a set bit is a byte that is not written
                let written = u64::from(length).saturating_sub(masked_bytes(mask));
                write!(
                    f,
                    "W {} {length} w={written}{}",
                    Address(address),
                    Cost(traffic)
                )
            }
            Line::Fill {
                address,
                data,
                traffic,
            } => write!(f, "F {}{}", Bytes { address, data }, Cost(traffic)),
            Line::LatencyType { value, traffic } => write!(f, "L {value}{}", Cost(traffic)),
            Line::Coverage { code, traffic } => write!(f, "P {code}{}", Cost(traffic)),
            Line::Register {
                number,
                byte,
                traffic,
            } => write!(f, "Q {number} {}{}", HexByte(byte), Cost(traffic)),
            Line::Reset { traffic } => write!(f, "Z{}", Cost(traffic)),
            Line::Refused(fault) => write!(f, "{}", Refused(fault)),
        }
    }
}
