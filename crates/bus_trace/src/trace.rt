// Playing the steps of a list on a chip, and a line for each of them.
use crate::amounts::Amounts;
use crate::steps::Step;
use anyhow::{Context, ensure};
use chip::{Chip, Exact, Frame, Outcome, Reply, exchange, exchange_soonest};
use fault::Fault;
use register::Coverage;
use std::alloc::Global;
use std::{fmt, io};

// The number of a refusal, its place, and the bytes that are good.
#[derive(Clone, Copy)]
struct Refused(Fault);

impl fmt::Display for Refused {
    fn fmt<W: fmt::Write>(&self, f: &mut fmt::Formatter<W>) -> fmt::Result {
        let Fault { refusal, place } = self.0;
        let details = refusal.details();
        write!(f, "refused by {} at {place}", details.number)?;
        match details.good {
            Some(good) => write!(f, ", {good} good"),
            None => Ok(()),
        }
    }
}

// The opening bytes of a frame as it is called, its gap and what it carries.
fn announce(rt: &HostRuntime, gap: u32, frame: Frame<'_>, bytes: u32) -> io::Result<()> {
    match frame.opening_bytes() {
        Some(opening) => {
            let [code, a3, a2, a1, a0] = opening;
            print!(rt; "  {code:02X} {a3:02X} {a2:02X} {a1:02X} {a0:02X}")?;
        }
        None => print!(rt; "  no frame")?,
    }
    print!(rt; ", gap {gap}")?;
    match frame {
        Frame::Read { .. } => print!(rt; ", {bytes} bytes"),
        Frame::Write { data, .. } => print!(rt; ", {} bytes", data.len()),
        Frame::RegisterWrite { value, .. } => print!(rt; ", value {value:02X}"),
        Frame::RegisterRead { .. } | Frame::GlobalReset => Ok(()),
    }
}

fn send<C: Exact>(
    rt: &HostRuntime,
    chip: &mut C,
    gap: Option<u32>,
    frame: Frame<'_>,
    bytes: u32,
) -> io::Result<()> {
    let least = chip.state().least_gap(&chip.config());
    announce(rt, gap.unwrap_or(least), frame, bytes)?;
    let mut buffer = vec![in rt.alloc(); 0; bytes as usize]?;
    let Outcome { answer, low } = match gap {
        Some(gap) => exchange(chip, gap, frame, buffer.as_mut_slice()),
        None => exchange_soonest(chip, frame, buffer.as_mut_slice()),
    };
    // a frame that was refused did not go over the bus
    if low > 0 {
        print!(rt; ", low {low}")?;
    }
    match answer {
        Ok(Reply::Done) => {
            print!(rt; ": done")?;
            for byte in &buffer {
                print!(rt; " {byte:02X}")?;
            }
            println!(rt; "")
        }
        Ok(Reply::Register(value)) => println!(rt; ": holds {value:02X}"),
        Err(fault) => println!(rt; ": {}", Refused(fault)),
    }
}

fn pulse<C: Chip>(rt: &HostRuntime, chip: &mut C, length: u32) -> io::Result<()> {
    print!(rt; "  pulse of {length}: ")?;
    match chip.reset(length) {
        Ok(()) => println!(rt; "done"),
        Err(fault) => println!(rt; "{}", Refused(fault)),
    }
}

// Whether the bottom half of the chip refreshes each page.
fn refreshed<C: Chip>(rt: &HostRuntime, chip: &C) -> io::Result<()> {
    let config = chip.config();
    let page = config.make.page();
    print!(rt; "  refreshed by the bottom half:")?;
    for number in 0..config.pages {
        let from = number.saturating_mul(page);
        let kept = chip.refreshed(Coverage::BottomHalf, from, page);
        print!(rt; " {}", if kept { "yes" } else { "no" })?;
    }
    println!(rt; "")
}

fn play<C: Exact>(rt: &HostRuntime, chip: &mut C, step: Step<'_>) -> io::Result<()> {
    match step {
        Step::Send { gap, frame, bytes } => send(rt, chip, gap, frame, bytes),
        Step::Pulse(length) => pulse(rt, chip, length),
        Step::Pages => {
            let config = chip.config();
            println!(rt; "  {} pages of {} bytes", config.pages, config.make.page())
        }
        Step::Refreshed => refreshed(rt, chip),
        Step::Counts => {
            let state = chip.state();
            println!(rt; "  {} frames, {} low clocks", state.frames, state.clocks)
        }
    }
}

// The mask of a write, of which the words have it in hexadecimal.
fn mask_of(heap: Global, words: &[&str]) -> anyhow::Result<Vec<u8>> {
    match words {
        [.., "mask", digits, "at", _, _] => Ok(hex::decode(heap, *digits)?),
        _ => Ok(Vec::new(heap)),
    }
}

// One line of a list.
fn play_line<C: Exact>(
    rt: &HostRuntime,
    chip: &mut C,
    amounts: &Amounts,
    line: &str,
) -> anyhow::Result<()> {
    if line.is_empty() || line.starts_with('#') {
        return Ok(());
    }
    let words: Vec<&str> = line.split_whitespace().collect(rt.alloc())?;
    let mask = mask_of(rt.alloc(), &words)?;
    let step = Step::read(&words, &mask, amounts).context(format_args!("not understood: {line}"))?;
    play(rt, chip, step)?;
    Ok(())
}

// Plays a list of the input on a chip that is not woken yet.
pub fn play_list<C: Exact>(
    rt: &HostRuntime,
    chip: &mut C,
    input: &str,
    list: &str,
) -> anyhow::Result<()> {
    let config = chip.config();
    let amounts = Amounts {
        clock: config.clock,
        page: config.make.page(),
        drive: u32::from(chip.state().mr0 & 0b11),
    };
    let mut found = false;
    let mut inside = false;
    for line in input.lines() {
        if let Some(name) = line.strip_prefix("list ") {
            inside = name == list;
            found = found || inside;
        } else if inside && line.starts_with(' ') {
            play_line(rt, chip, &amounts, line.trim_start())?;
        }
    }
    ensure!(found, "no list {list}");
    Ok(())
}
