//! The bench sheet of one record: for each make, temperature range and clock, the clock numbers, the
//! record's place, and the frames that read and write it.
#![tactic(auto)]

use clock::{Clock, TemperatureRange};
use frame::{Command, Make, Span, Transfer};
use split::{Direction, Splitter, frames_of, rounded_span};
use std::{fmt, io};

// Where the record lies: from an odd address, over the end of a page of A, within one page of S.
const START: u32 = 0x3e3;

const LENGTH: u32 = 64;

const CLOCKS: [u32; 6] = [10_250, 41_000, 41_001, 66_000, 109_000, 133_000];

// The numbers of a clock.
#[derive(Clone, Copy, Debug, PartialEq, Eq)]
struct Numbers(Clock);

impl fmt::Display for Numbers {
    fn fmt<W: fmt::Write>(&self, f: &mut fmt::Formatter<W>) -> fmt::Result {
        let clock = self.0;
        let period = clock.period();
        let lc = clock.lc.clocks();
        let wl = clock.wl.clocks();
        write!(f, "period {period} ps, LC {lc}, WL {wl}, ")?;
        write!(
            f,
            "tCEM {}, tCPH {}, tRC {}, ",
            clock.tcem, clock.tcph, clock.trc
        )?;
        write!(
            f,
            "tRST {}, tPU {}, tRP {}",
            clock.trst, clock.tpu, clock.trp
        )
    }
}

// The bytes that open a frame, in hexadecimal digits.
#[derive(Clone, Copy, Debug, PartialEq, Eq)]
struct OpeningBytes(Option<[u8; 5]>);

impl fmt::Display for OpeningBytes {
    fn fmt<W: fmt::Write>(&self, f: &mut fmt::Formatter<W>) -> fmt::Result {
        match self.0 {
            Some(bytes) => {
                let [code, a3, a2, a1, a0] = bytes;
                write!(f, "{code:02X} {a3:02X} {a2:02X} {a1:02X} {a0:02X}")
            }
            None => f.write_str("no frame"),
        }
    }
}

// A frame that carries one piece of the record.
#[derive(Clone, Copy, Debug, PartialEq, Eq)]
struct Frame {
    direction: Direction,
    clock: Clock,
    piece: Span,
}

impl Frame {
    // The least and the most low clocks: a read may take twice its latency.
    fn low_clocks(&self) -> (u64, u64) {
        let bytes = self.piece.bytes() as usize;
        let latency = self.direction.latency(&self.clock);
        match self.direction {
            Direction::Read => {
                let least = Transfer::Read {
                    latency: latency.clocks(),
                    bytes,
                };
                let most = Transfer::Read {
                    latency: 2 * latency.clocks(),
                    bytes,
                };
                (least.low_clocks(), most.low_clocks())
            }
            Direction::Write => {
                let low = Transfer::Write { latency, bytes }.low_clocks();
                (low, low)
            }
        }
    }
}

impl fmt::Display for Frame {
    fn fmt<W: fmt::Write>(&self, f: &mut fmt::Formatter<W>) -> fmt::Result {
        let (name, command) = match self.direction {
            Direction::Read => ("read", Command::LinearRead),
            Direction::Write => ("write", Command::LinearWrite),
        };
        let opening = OpeningBytes(command.opening_bytes(self.piece.from));
        let bytes = self.piece.bytes();
        let (least, most) = self.low_clocks();
        let left = u64::from(self.clock.tcem).saturating_sub(most);
        write!(
            f,
            "  {name} {opening}, {bytes} bytes, low {least} to {most}, left {left}"
        )
    }
}

// Where the record lies, how many frames it takes, and these.
fn record(rt: &HostRuntime, make: Make, clock: Clock) -> io::Result<()> {
    let (row, column) = make.row_and_column(START);
    let frames = |way| frames_of(way, make, &clock, START, LENGTH).unwrap_or(0);
    let (reads, writes) = (frames(Direction::Read), frames(Direction::Write));
    println!(rt; "  row {row}, column {column}, frames {reads} to read, {writes} to write")?;
    let Some(span) = rounded_span(START, LENGTH) else {
        return Ok(());
    };
    for direction in [Direction::Read, Direction::Write] {
        let splitter = Splitter::new(direction, make, &clock, direction.latency(&clock));
        for piece in splitter.pieces(span) {
            let frame = Frame {
                direction,
                clock,
                piece,
            };
            println!(rt; "{frame}")?;
        }
    }
    Ok(())
}

fn sheet(rt: &HostRuntime, make: Make, range: TemperatureRange, khz: u32) -> io::Result<()> {
    print!(rt; "{make} {range} {khz} kHz: ")?;
    match Clock::new(khz, range) {
        Ok(clock) => {
            let numbers = Numbers(clock);
            println!(rt; "{numbers}")?;
            record(rt, make, clock)
        }
        Err(refusal) => {
            let number = refusal.details().number;
            println!(rt; "refused by {number}")
        }
    }
}

fn main(rt: HostRuntime) -> io::Result<()> {
    println!(rt; "a record of {LENGTH} bytes at {START:06X}")?;
    for make in [Make::A, Make::S] {
        for range in [TemperatureRange::Normal, TemperatureRange::Extended] {
            for khz in CLOCKS {
                sheet(&rt, make, range, khz)?;
            }
        }
    }
    Ok(())
}
