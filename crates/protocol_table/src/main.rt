// Compares the functions of the protocol with a table. A row is a question and its answer, parted
// by " = ". Prints each row that differs, with what was found, and last the counts.
#![tactic(auto)]

mod clocks;
mod frames;
mod items;
mod masks;
mod names;
mod registers;
mod rows;
mod scripts;
mod splits;
mod words;

use rows::judge;
use std::io;
use std::io::{BufRead, BufReader};

fn main(rt: HostRuntime) -> io::Result<()> {
    let heap = rt.alloc();
    // counted by hand: a row is read, judged and let go before the next one, and reading may fail
    let mut count = 0u64;
    let mut differ = 0u64;
    for line in BufReader::new(heap, rt.stdin())?.lines(heap) {
        let line = line?;
        count = count.saturating_add(1);
        if let Err(mismatch) = judge(heap, line.as_str()) {
            differ = differ.saturating_add(1);
            println!(rt; "{line}, found {mismatch}")?;
        }
    }
    println!(rt; "rows {count} differ {differ}")
}
