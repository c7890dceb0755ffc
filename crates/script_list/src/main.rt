//! Reads a script from standard input and prints its commands in words, each behind its place, and
//! the refusal that ends it.
#![tactic(auto)]

use report::Listing;
use script::{LONGEST, read};
use std::alloc::Global;
use std::io;
use std::io::{BufWriter, Read, Write};

fn print<W: Write>(heap: Global, out: &mut W, script: &[u8]) -> io::Result<()> {
    // a script has at most as many commands as bytes
    let mut commands = Vec::with_capacity(heap, script.len())?;
    let ending = read(script, &mut commands)?;
    let commands = &commands;
    write!(out, "{}", Listing { commands, ending })
}

fn main(rt: HostRuntime) -> io::Result<()> {
    // one byte more than a script may have, so that one that is too long is seen to be
    let mut input = Vec::new(rt.alloc());
    rt.stdin().take(LONGEST as u64 + 1).read_to_end(&mut input)?;
    let mut out = BufWriter::new(rt.alloc(), rt.stdout())?;
    print(rt.alloc(), &mut out, &input)?;
    out.flush()
}
