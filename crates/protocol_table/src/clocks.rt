// Rows on clock numbers.
use crate::items::{Item, shown};
use crate::words::{Word, clock_of};
use clock::Clock;
use std::alloc::Global;

// All clock numbers and the period of a range and a clock in kHz, or the number of the refusal.
pub fn numbers(heap: Global, words: &[Word]) -> Option<String> {
    let [Word::TemperatureRange(range), Word::Number(khz)] = words else {
        return None;
    };
    match Clock::new(*khz, *range) {
        Ok(clock) => all_numbers(heap, &clock),
        Err(refusal) => {
            let number = refusal.details().number;
            shown(
                heap,
                &[Item::Name("refused"), Item::Number(u32::from(number))],
            )
        }
    }
}

fn all_numbers(heap: Global, clock: &Clock) -> Option<String> {
    shown(
        heap,
        &[
            Item::Number(clock.khz),
            Item::Number(clock.lc.clocks()),
            Item::Number(clock.wl.clocks()),
            Item::Number(clock.tcem),
            Item::Number(clock.tcph),
            Item::Number(clock.trc),
            Item::Number(clock.trst),
            Item::Number(clock.tpu),
            Item::Number(clock.trp),
            Item::Number(clock.period()),
        ],
    )
}

// Whether a frame of so many low clocks keeps tCEM.
pub fn keeps(heap: Global, words: &[Word]) -> Option<String> {
    let [clock @ .., low] = words else {
        return None;
    };
    let keeps = clock_of(clock)?.keeps_tcem(low.long()?);
    shown(heap, &[Item::Flag(keeps)])
}
