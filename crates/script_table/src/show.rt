//! What is read of one script.
use fault::Fault;
use report::{Listing, first_line};
use script::{Command, Placed, list, read};
use std::alloc::Global;
use std::io;
use std::io::Write;

/// The first line of the report, and the commands in words.
pub fn listing<W: Write>(heap: Global, out: &mut W, script: &[u8]) -> io::Result<()> {
    let count = script.len();
    writeln!(out, "of {count}: {}", first_line(script))?;
    let mut commands = Vec::with_capacity(heap, count)?;
    let ending = read(script, &mut commands)?;
    let commands = &commands;
    write!(out, "{}", Listing { commands, ending })
}

// The length, the bytes of data and the bytes of mask of a command.
fn parts(command: Command<'_>) -> (u16, usize, usize) {
    match command {
        Command::Read { length, .. } => (length, 0, 0),
        Command::Write {
            length,
            data,
            mask,
            ..
        } => (length, data.len(), mask.len()),
        _ => (0, 0, 0),
    }
}

/// How many commands there are, the parts and the place of the last one, and how they end.
pub fn counts<W: Write>(heap: Global, out: &mut W, script: &[u8]) -> io::Result<()> {
    let bytes = script.len();
    let mut commands = Vec::with_capacity(heap, bytes)?;
    let ending = list(script, &mut commands)?;
    writeln!(out, "commands {} in {bytes}", commands.len())?;
    if let Some(Placed { place, command }) = commands.last() {
        let (length, data, mask) = parts(*command);
        writeln!(out, "@{place} length {length} data {data} mask {mask}")?;
    }
    match ending {
        None => writeln!(out, "at the end"),
        Some(Fault { refusal, place }) => {
            writeln!(out, "by {} at {place}", refusal.details().number)
        }
    }
}
