// Rows on the mode registers.
use crate::items::{Item, NONE, shown};
use crate::names::name_of;
use crate::words::{Word, clock_of};
use frame::Span;
use register::{Mr0, Mr4, Mr8, accepts, after_reset, on_wire, readable, writable};
use std::alloc::Global;

// What a value means in MR0, MR4 and MR8; the coverage by what it keeps of eight addresses.
pub fn meaning(heap: Global, words: &[Word]) -> Option<String> {
    let [Word::Byte(value)] = words else {
        return None;
    };
    let mr0 = Mr0::from(*value);
    let mr4 = Mr4::from(*value);
    let kept = mr4.coverage.refreshed_span(8);
    shown(
        heap,
        &[
            Item::Name(name_of(Word::Type(mr0.latency_type))?),
            Item::Number(mr0.lc.clocks()),
            Item::byte(mr0.drive),
            Item::Number(mr4.wl.clocks()),
            Item::Number(kept.from),
            Item::Number(kept.to),
            Item::Name(name_of(Word::Burst(Mr8::from(*value).burst))?),
        ],
    )
}

// The values that a register takes.
pub fn accepted(heap: Global, words: &[Word]) -> Option<String> {
    let [Word::Byte(number)] = words else {
        return None;
    };
    let items: Vec<Item> = (0..=u8::MAX)
        .filter(|value| accepts(*number, *value))
        .map(Item::byte)
        .collect(heap)
        .ok()?;
    shown(heap, &items)
}

// Whether a register can be read and written, and what it holds after a reset.
pub fn access(heap: Global, words: &[Word]) -> Option<String> {
    let [Word::Make(make), Word::Byte(number)] = words else {
        return None;
    };
    let held = after_reset(*make, *number).map_or(NONE, Item::byte);
    let reads = Item::Flag(readable(*number));
    let writes = Item::Flag(writable(*number));
    shown(heap, &[reads, writes, held])
}

// The values of MR0 for a clock, a latency type and a drive code, and of MR4 for a coverage; or of
// MR8 for a line.
pub fn settings(heap: Global, words: &[Word]) -> Option<String> {
    match words {
        [
            clock @ ..,
            Word::Type(latency_type),
            Word::Byte(drive),
            Word::Coverage(coverage),
        ] => {
            let clock = clock_of(clock)?;
            let mr0 = Item::byte(Mr0::value(&clock, *latency_type, *drive));
            let mr4 = Item::byte(Mr4::value(&clock, *coverage));
            shown(heap, &[mr0, mr4])
        }
        [Word::Line(line)] => shown(heap, &[Item::byte(line.mr8())]),
        _ => None,
    }
}

// The burst on the wire of a frame under a value of MR8.
pub fn wire(heap: Global, words: &[Word]) -> Option<String> {
    let [Word::Burst(carried), Word::Byte(value)] = words else {
        return None;
    };
    let burst = on_wire(*carried, *value);
    shown(heap, &[Item::Name(name_of(Word::Burst(burst))?)])
}

// The addresses that a coverage keeps of a size.
pub fn kept(heap: Global, words: &[Word]) -> Option<String> {
    let [Word::Coverage(coverage), Word::Number(size)] = words else {
        return None;
    };
    let Span { from, to } = coverage.refreshed_span(*size);
    if from < to {
        shown(heap, &[Item::Number(from), Item::Number(to)])
    } else {
        shown(heap, &[])
    }
}
