//! The frames that a request takes.
ghost use Rattle.std.specs.Prelude.{◌≡◌};
ghost use Rattle.split.specs.Edges.{EdgeValues};
ghost use Rattle.split.specs.Pieces.{frames_of};
ghost use Rattle.split.specs.Splits.{rounded_span};

use crate::direction::Direction;
use crate::splitter::Splitter;
use clock::Clock;
use frame::{Make, Span};

/// `count` bytes from `start`, rounded out to even ends. `None` where the end does not fit.
pub fn rounded_span(start: u32, count: u32) -> Option<Span>
    ensures { result ≡ rounded_span start count }
{
    let end = start.checked_add(count)?;
    let to = end.checked_add(end % 2)?;
    Some(Span {
        from: start - start % 2,
        to,
    })
}

/// The number of frames that `count` bytes from `start` take in one direction, with the latency of
/// the clock. `None` where the rounded range has no end that fits.
#[tactic(auto, using(crate::proofs::Edges::edge_values))]
pub fn frames_of(
    direction: Direction,
    make: Make,
    clock: &Clock,
    start: u32,
    count: u32,
) -> Option<u32>
    ensures value { result ≡ frames_of direction make clock.now start count }
    ensures edges { EdgeValues }
{
    let span = rounded_span(start, count)?;
    let splitter = Splitter::new(direction, make, clock, direction.latency(clock));
    Some(splitter.count(span))
}
