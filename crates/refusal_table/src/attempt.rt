// Trying a case on a chip, and its line: the answer, and whether the chip's state and the buffer
// stayed as they were.
use crate::amounts::Amounts;
use crate::cases::{Case, Try};
use anyhow::{Context, ensure};
use chip::{Chip, Frame, Reply};
use fault::Fault;
use frame::Burst;
use std::{fmt, io};

// What buffers are filled with, and what is written.
const FILL: u8 = 0xee;

const DATA: u8 = 0x5a;

// The number of a refusal, its place, and the bytes that are good.
#[derive(Clone, Copy)]
pub struct Refused(pub Fault);

impl fmt::Display for Refused {
    fn fmt<W: fmt::Write>(&self, f: &mut fmt::Formatter<W>) -> fmt::Result {
        let Fault { refusal, place } = self.0;
        let details = refusal.details();
        write!(f, "{} at {place}", details.number)?;
        match details.good {
            Some(good) => write!(f, ", k={good}"),
            None => Ok(()),
        }
    }
}

pub fn stayed(kept: bool) -> &'static str {
    if kept { "stayed" } else { "changed" }
}

fn attempt<C: Chip>(rt: &HostRuntime, chip: &mut C, case: Case) -> io::Result<()> {
    let Case { gap, what } = case;
    let burst = Burst::Linear;
    // what is no read gets a buffer too
    let bytes = match what {
        Try::Read { bytes, .. } => bytes as usize,
        _ => 4,
    };
    let mut buffer = vec![in rt.alloc(); FILL; bytes]?;
    let before = chip.state();
    let answer = match what {
        Try::Read { start, .. } => chip.send(gap, Frame::Read { burst, start }, &mut buffer),
        Try::Write {
            start,
            bytes,
            masks,
        } => {
            let data = vec![in rt.alloc(); DATA; bytes as usize]?;
            let mask = vec![in rt.alloc(); 0; masks as usize]?;
            let frame = Frame::Write {
                burst,
                start,
                data: &data,
                mask: &mask,
            };
            chip.send(gap, frame, &mut buffer)
        }
        Try::RegisterRead(number) => chip.send(gap, Frame::RegisterRead { number }, &mut buffer),
        Try::RegisterWrite(number, value) => {
            chip.send(gap, Frame::RegisterWrite { number, value }, &mut buffer)
        }
        Try::Wake => chip.send(gap, Frame::GlobalReset, &mut buffer),
        Try::Pulse => chip.reset(gap).map(|()| Reply::Done),
    };
    print!(rt; "  {case}: ")?;
    match answer {
        Ok(Reply::Register(value)) => print!(rt; "holds {value:02X}")?,
        Ok(Reply::Done) => print!(rt; "done")?,
        Err(fault) => print!(rt; "{}", Refused(fault))?,
    }
    if let (Ok(_), Try::Read { .. }, Some(first)) = (answer, what, buffer.first()) {
        print!(rt; ", first {first:02X}")?;
    }
    let state = stayed(before == chip.state());
    let buffer = stayed(buffer.iter().all(|byte| *byte == FILL));
    println!(rt; "; state {state}, buffer {buffer}")
}

// One line of a list.
fn attempt_line<C: Chip>(
    rt: &HostRuntime,
    chip: &mut C,
    amounts: &Amounts,
    line: &str,
) -> anyhow::Result<()> {
    if line.is_empty() || line.starts_with('#') {
        return Ok(());
    }
    if let Some(title) = line.strip_prefix("title ") {
        println!(rt; " {title}")?;
        return Ok(());
    }
    let words: Vec<&str> = line.split_whitespace().collect(rt.alloc())?;
    let case = Case::read(words.as_slice(), amounts).context(format_args!(
        "not understood: {line}"
    ))?;
    attempt(rt, chip, case)?;
    Ok(())
}

// A list of cases in the input.
#[derive(Clone, Copy)]
pub struct List<'a> {
    pub input: &'a str,
    pub name: &'a str,
    pub longest: Option<u32>,
    pub widest: Option<u32>,
}

impl List<'_> {
    // Tries each case of the list on a chip.
    pub fn attempt<C: Chip>(&self, rt: &HostRuntime, chip: &mut C) -> anyhow::Result<()> {
        let config = chip.config();
        let amounts = Amounts {
            clock: config.clock,
            size: config.pages.saturating_mul(config.make.page()),
            longest: self.longest,
            widest: self.widest,
        };
        let mut found = false;
        let mut inside = false;
        for line in self.input.lines() {
            if let Some(name) = line.strip_prefix("list ") {
                inside = name == self.name;
                found = found || inside;
            } else if inside && line.starts_with(' ') {
                attempt_line(rt, chip, &amounts, line.trim_start())?;
            }
        }
        ensure!(found, "no list {}", self.name);
        Ok(())
    }
}
