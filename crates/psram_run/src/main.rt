//! Reads a script from standard input and prints its report.
#![tactic(auto)]

use run_script::report;
use script::LONGEST;
use std::io;
use std::io::{Read, Write};

fn main(rt: HostRuntime) -> io::Result<()> {
    // one byte more than a script may have, so that one that is too long is seen to be
    let mut input = Vec::new(rt.alloc());
    rt.stdin().take(LONGEST as u64 + 1).read_to_end(&mut input)?;
    let text = report(rt.alloc(), &input)?;
    rt.stdout().write_all(&text)
}
