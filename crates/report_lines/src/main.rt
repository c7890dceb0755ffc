//! Lines of the report: those that the page on reports quotes, and lines at the ends of each field.
#![tactic(auto)]

mod fields;
mod quoted;
mod refusals;

use std::io;
use std::io::{BufWriter, Write};

fn main(rt: HostRuntime) -> io::Result<()> {
    let mut out = BufWriter::new(rt.alloc(), rt.stdout())?;
    quoted::lines(&mut out)?;
    fields::reads(&mut out)?;
    fields::writes(&mut out)?;
    fields::fills(&mut out)?;
    fields::settings(&mut out)?;
    fields::registers(&mut out)?;
    fields::costs(&mut out)?;
    refusals::lines(&mut out)?;
    out.flush()
}
