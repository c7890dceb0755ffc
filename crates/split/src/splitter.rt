//! Splitting ranges into pieces, one for each frame.
ghost use Rattle.std.specs.Prelude.{◌≡◌, ◌%◌, ◌<◌};

use crate::direction::Direction;
use crate::pieces::Pieces;
use clock::{Clock, Latency};
use frame::{Make, Span};

/// Splits ranges into pieces, each of which lies in one page and has at most `limit` bytes.
#[derive(Clone, Copy, Debug, PartialEq, Eq)]
pub struct Splitter {
    pub make: Make,
    pub limit: u32,
    ghost some: { 0 < limit },
    ghost even: { limit % 2 ≡ 0 },
}

impl Splitter {
    ghost use Rattle.std.specs.Prelude.{length};
    ghost use Rattle.frame.specs.Pages.{page};
    ghost use Rattle.split.specs.Directions.{limit, longest_frame};
    ghost use Rattle.split.specs.Pieces.{fits_in, next_length_in, lengths_in, pieces_in, pieces_left};
    ghost use Rattle.split.specs.Splits.{IsLimit, HasEvenEnds, IsLawful, TakesLongest};
    ghost use Rattle.split.specs.Splits.{LongestFirstIsFewest, LongestFirstIsFewestIn};

    /// For frames of one direction at a clock, with the latency that the chip has. The limit is
    /// 2 (tCEM - 3 - 2 LC) bytes for reads, and 2 (tCEM - 3 - WL) for writes.
    pub fn new(direction: Direction, make: Make, clock: &Clock, latency: Latency) -> Splitter
        ensures make { result.make ≡ make }
        ensures limit { result.limit ≡ limit direction clock.now.tcem latency }
        ensures keeps { IsLimit (longest_frame direction latency) clock.now.tcem result.limit }
    {
        let limit = 2 * (clock.tcem - 3 - direction.most_clocks(latency));
        Splitter { make, limit }
    }

    /// The length of the next piece of a range: the longest that fits. 0 where nothing is left.
    pub fn next_length(&self, span: Span) -> u32
        ensures value { result ≡ next_length_in self.now span.from span.to }
        ensures longest { TakesLongest (fits_in self.now) (next_length_in self.now) }
    {
        let (_, column) = self.make.row_and_column(span.from);
        span.bytes().min(self.limit).min(self.make.page() - column)
    }

    /// The pieces of a range.
    pub fn pieces(&self, span: Span) -> Pieces
        ensures { pieces_left result ≡ pieces_in self.now span }
    {
        Pieces {
            splitter: *self,
            left: span,
        }
    }

    /// The number of pieces of a range. No lawful split has fewer pieces than the one that takes
    /// the longest piece each time: so it is for every predicate that is closed under taking parts,
    /// and for what fits this splitter.
    pub fn count(&self, span: Span) -> u32
        ensures value { result ≡ length (lengths_in self.now span) }
        ensures lawful { HasEvenEnds span
            → IsLawful (fits_in self.now) span.from span.to (lengths_in self.now span) }
        ensures fewest { LongestFirstIsFewestIn (page self.now.make) self.now.limit }
        ensures always { LongestFirstIsFewest }
    {
        self.pieces(span).count() as u32
    }
}
