// Rows on splitting ranges into pieces.
use crate::items::{Item, shown};
use crate::words::{Word, clock_of};
use clock::Clock;
use frame::{Command, Make, Span};
use split::{Direction, Splitter, frames_of};
use std::alloc::Global;

// Which frames are sent, and to which chip.
#[derive(Clone, Copy, Debug, PartialEq, Eq)]
struct Setup {
    direction: Direction,
    make: Make,
    clock: Clock,
}

impl Setup {
    fn of(words: &[Word]) -> Option<Setup> {
        let [Word::Command(command), Word::Make(make), clock @ ..] = words else {
            return None;
        };
        let direction = match command {
            Command::Read => Direction::Read,
            Command::Write => Direction::Write,
            _ => return None,
        };
        Some(Setup {
            direction,
            make: *make,
            clock: clock_of(clock)?,
        })
    }
}

// The most bytes of a piece, the next piece of a range, and the number of its pieces.
pub fn pieces(heap: Global, words: &[Word]) -> Option<String> {
    let [
        setup @ ..,
        Word::Latency(latency),
        Word::Number(from),
        Word::Number(to),
    ] = words
    else {
        return None;
    };
    let setup = Setup::of(setup)?;
    let splitter = Splitter::new(setup.direction, setup.make, &setup.clock, *latency);
    // of a range that ends before its start nothing is left
    let span = Span {
        from: *from,
        to: (*to).max(*from),
    };
    let limit = Item::Number(splitter.limit);
    let next = Item::Number(splitter.next_length(span));
    let count = Item::Number(splitter.count(span));
    shown(heap, &[limit, next, count])
}

// The number of frames of a read or a write.
pub fn frames(heap: Global, words: &[Word]) -> Option<String> {
    let [setup @ .., Word::Number(start), Word::Number(length)] = words else {
        return None;
    };
    let setup = Setup::of(setup)?;
    match frames_of(setup.direction, setup.make, &setup.clock, *start, *length) {
        Some(count) => shown(heap, &[Item::Number(count)]),
        None => shown(heap, &[]),
    }
}

// A range rounded out to even ends.
pub fn rounded(heap: Global, words: &[Word]) -> Option<String> {
    let [Word::Number(start), Word::Number(length)] = words else {
        return None;
    };
    match split::rounded_span(*start, *length) {
        Some(Span { from, to }) => shown(heap, &[Item::Number(from), Item::Number(to)]),
        None => shown(heap, &[]),
    }
}
