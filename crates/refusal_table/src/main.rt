// What a chip refuses, by 13 to 20, one step to each side of every edge: on the models, and through a
// scrambler over a window.
//
// The cases are read from standard input, one a line. Blank lines and those that begin with # say
// nothing. A line that is not understood ends the program with an error.
//
//     list NAME             begins a list of cases; its lines are indented, and read where it is played
//     title TEXT            prints a title, in a list and outside
//     play NAME on CHIP     tries the cases of a list on a new chip
//     play NAME longest COUNT widest COUNT on CHIP
//                           the same for a list that speaks of the longest read and write, in bytes
//     hide PAGES on CHIP    makes a window that hides so many pages of a new chip
//
// A case is one of these; a write without a mask has one of the right size:
//
//     after GAP read COUNT at START
//     after GAP write COUNT at START
//     after GAP write COUNT at START mask of SIZE
//     after GAP read MRn
//     after GAP write MRn with VALUE
//     after GAP wake
//     pulse of LENGTH
//
// A chip is the opening of a script, in hexadecimal. `Amounts` says how numbers are written.
#![tactic(auto)]

mod amounts;
mod attempt;
mod cases;
mod chips;

use anyhow::{bail, ensure};
use attempt::{List, Refused, stayed};
use chip::Chip;
use chips::{model, opening_of, refused};
use frame::Make;
use model::{Part, PartA, PartS};
use scrambler::Scrambler;
use script::{Opening, Stack};
use std::io;
use window::Window;

// Tries a list on a chip of a part, bare or below the layers of its opening.
fn play<P: Part>(rt: &HostRuntime, opening: &Opening, list: List<'_>) -> anyhow::Result<()> {
    let mut chip = model::<P>(rt.alloc(), opening)?;
    match opening.stack {
        Stack::Plain => list.attempt(rt, &mut chip),
        Stack::Keyed(key) => {
            let mut stack = Scrambler::over_window(chip, 1, key).map_err(|back| refused(
                back.fault.refusal,
            ))?;
            list.attempt(rt, &mut stack)
        }
    }
}

fn play_on(rt: &HostRuntime, opening: &[&str], list: List<'_>) -> anyhow::Result<()> {
    let opening = opening_of(rt.alloc(), opening)?;
    match opening.make {
        Make::A => play::<PartA>(rt, &opening, list),
        Make::S => play::<PartS>(rt, &opening, list),
    }
}

// Makes a window over a chip of a part.
fn hide<P: Part>(rt: &HostRuntime, opening: &Opening, hidden: u32) -> anyhow::Result<()> {
    let chip = model::<P>(rt.alloc(), opening)?;
    let before = chip.state();
    print!(rt; "  hide {hidden} of {}: ", chip.config().pages)?;
    match Window::new(chip, hidden) {
        Ok(window) => println!(rt; "{} left", window.config().pages)?,
        Err(back) => {
            let state = stayed(before == back.value.state());
            println!(rt; "{}; state {state}", Refused(back.fault))?;
        }
    }
    Ok(())
}

fn hide_on(rt: &HostRuntime, opening: &[&str], hidden: u32) -> anyhow::Result<()> {
    let opening = opening_of(rt.alloc(), opening)?;
    match opening.make {
        Make::A => hide::<PartA>(rt, &opening, hidden),
        Make::S => hide::<PartS>(rt, &opening, hidden),
    }
}

// One line that stands in no list.
fn run(rt: &HostRuntime, input: &str, line: &str) -> anyhow::Result<()> {
    if line.is_empty() || line.starts_with('#') {
        return Ok(());
    }
    if let Some(title) = line.strip_prefix("title ") {
        println!(rt; "{title}")?;
        return Ok(());
    }
    let words: Vec<&str> = line.split_whitespace().collect(rt.alloc())?;
    match words.as_slice() {
        ["list", _] => Ok(()),
        ["play", name, "on", opening @ ..] => {
            let list = List {
                input,
                name,
                longest: None,
                widest: None,
            };
            play_on(rt, opening, list)
        }
        [
            "play",
            name,
            "longest",
            longest,
            "widest",
            widest,
            "on",
            opening @ ..,
        ] => {
            let list = List {
                input,
                name,
                longest: Some(longest.parse()?),
                widest: Some(widest.parse()?),
            };
            play_on(rt, opening, list)
        }
        ["hide", hidden, "on", opening @ ..] => hide_on(rt, opening, hidden.parse()?),
        _ => bail!("not understood: {line}"),
    }
}

fn main(rt: HostRuntime) -> anyhow::Result<()> {
    let input = io::read_to_string(rt.alloc(), rt.stdin())?;
    let mut listed = false;
    for line in input.as_str().lines() {
        listed = listed || line.starts_with("list ");
        if line.starts_with(' ') {
            ensure!(listed, "not understood: {line}");
        } else {
            run(&rt, input.as_str(), line)?;
        }
    }
    Ok(())
}
