// Sequences of frames over the models of both makes, bare and below a window and a scrambler. The
// opening bytes are those of the frames as they are called.
//
// What is sent is read from standard input, a line each. Blank lines and those that begin with # say
// nothing. A line that is not understood ends the program with an error.
//
//     list NAME             begins a list of steps; its lines are indented, and read where it is played
//     title TEXT            prints a title
//     play NAME on CHIP     plays a list on a new chip
//
// A step is one of these:
//
//     after GAP read COUNT at START BURST
//     after GAP write DATA mask MASK at START BURST
//     after GAP read MRn
//     after GAP write MRn with VALUE
//     after GAP wake
//     soonest ..                        any of these after the least gap, in place of after GAP
//     pulse of LENGTH
//     pages                             prints how many pages there are
//     refreshed by the bottom half      prints which pages are
//     counts                            prints the counts of the chip
//
// Data are text. A mask and a chip are in hexadecimal, a chip as the opening of a script. A burst is
// linear, or wrapped- or hybrid- and 16, 32, 64 or page. `Amounts` says how numbers are written.
#![tactic(auto)]

mod amounts;
mod chips;
mod steps;
mod trace;

use anyhow::{bail, ensure};
use chips::{model, opening_of, refused};
use frame::Make;
use model::{Part, PartA, PartS};
use scrambler::Scrambler;
use script::{Opening, Stack};
use std::io;
use trace::play_list;

// Plays a list on a chip of a part, bare or below the layers of its opening.
fn play<P: Part>(
    rt: &HostRuntime,
    opening: &Opening,
    input: &str,
    list: &str,
) -> anyhow::Result<()> {
    let mut chip = model::<P>(rt.alloc(), opening)?;
    match opening.stack {
        Stack::Plain => play_list(rt, &mut chip, input, list),
        Stack::Keyed(key) => {
            let mut stack = Scrambler::over_window(chip, 1, key).map_err(|back| refused(
                back.fault.refusal,
            ))?;
            play_list(rt, &mut stack, input, list)
        }
    }
}

// One line that stands in no list.
fn run(rt: &HostRuntime, input: &str, line: &str) -> anyhow::Result<()> {
    if line.is_empty() || line.starts_with('#') {
        return Ok(());
    }
    if let Some(title) = line.strip_prefix("title ") {
        println!(rt; "{title}")?;
        return Ok(());
    }
    let words: Vec<&str> = line.split_whitespace().collect(rt.alloc())?;
    match words.as_slice() {
        ["list", _] => Ok(()),
        ["play", list, "on", opening @ ..] => {
            let opening = opening_of(rt.alloc(), opening)?;
            match opening.make {
                Make::A => play::<PartA>(rt, &opening, input, list),
                Make::S => play::<PartS>(rt, &opening, input, list),
            }
        }
        _ => bail!("not understood: {line}"),
    }
}

fn main(rt: HostRuntime) -> anyhow::Result<()> {
    let input = io::read_to_string(rt.alloc(), rt.stdin())?;
    let mut listed = false;
    for line in input.as_str().lines() {
        listed = listed || line.starts_with("list ");
        if line.starts_with(' ') {
            ensure!(listed, "not understood: {line}");
        } else {
            run(&rt, input.as_str(), line)?;
        }
    }
    Ok(())
}
