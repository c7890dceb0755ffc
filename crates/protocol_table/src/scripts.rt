// Rows on the opening of a script, on refusals and on the lines of the report.
use crate::items::{Item, shown};
use crate::words::Word;
use fault::{Fault, Refusal};
use report::{Refused, first_line as report_line};
use script::{Opening, Stack};
use std::alloc::Global;

// What is read of an opening.
pub fn opening(heap: Global, script: &[u8]) -> Option<String> {
    match Opening::parse(script) {
        Ok(opening) => opening_items(heap, &opening),
        Err(fault) => fault_line(heap, fault),
    }
}

// The page length tells the make, and tCEM the range.
fn opening_items(heap: Global, opening: &Opening) -> Option<String> {
    let key = match opening.stack {
        Stack::Plain => 0,
        Stack::Keyed(key) => u128::from_be_bytes(key),
    };
    shown(
        heap,
        &[
            Item::Number(opening.make.page()),
            Item::Number(u32::from(opening.pages)),
            Item::Number(opening.clock.khz),
            Item::Number(opening.clock.tcem),
            Item::Number(opening.refresh_word),
            Item::Number(u32::from(opening.strobe_count)),
            Item::Long(opening.length() as u64),
            Item::Hex(key, 32),
        ],
    )
}

// The first line of the report on a script.
pub fn first_line(heap: Global, script: &[u8]) -> Option<String> {
    report_line(script).to_string(heap).ok()
}

// A refusal at a place; where the strobe was lost, the good bytes behind it.
pub fn refusal(heap: Global, words: &[Word]) -> Option<String> {
    match words {
        [
            Word::Refusal(Refusal::NoStrobe(_)),
            Word::Number(place),
            Word::Number(good),
        ] => fault_line(heap, Refusal::NoStrobe(*good).at(*place)),
        [Word::Refusal(refusal), Word::Number(place)] => fault_line(heap, refusal.at(*place)),
        _ => None,
    }
}

// The line of a refusal, and its layer.
fn fault_line(heap: Global, fault: Fault) -> Option<String> {
    let layer = fault.refusal.details().layer;
    format!(in heap; "{} {layer}", Refused(fault)).ok()
}
