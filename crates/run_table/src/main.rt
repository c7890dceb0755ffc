// Compares the reports of scripts with a table. Prints the title of each case that differs and the
// report that was found, and last the counts.
//
// The table is read from standard input: a title, a script in hexadecimal and the lines of its
// report, case behind case. A count behind the digits of a script says how many zeros follow them.
//
//     # TITLE
//     script DIGITS+COUNT
//     > LINE
#![tactic(auto)]

mod cases;

use anyhow::Context;
use cases::{case_of, found};
use std::io;

fn main(rt: HostRuntime) -> anyhow::Result<()> {
    let heap = rt.alloc();
    let input = io::read_to_string(heap, rt.stdin())?;
    let table = input
        .strip_prefix("# ")
        .context("a table begins with a title")?;
    // counted by hand: a case is judged and let go before the next one
    let mut count = 0u64;
    let mut differ = 0u64;
    for case in table.split("\n# ") {
        count = count.saturating_add(1);
        let case = case_of(heap, case)?;
        let found = found(heap, &case)?;
        if found != case.report {
            differ = differ.saturating_add(1);
            println!(rt; "{}, found\n{found}", case.title)?;
        }
    }
    println!(rt; "scripts {count} differ {differ}")?;
    Ok(())
}
