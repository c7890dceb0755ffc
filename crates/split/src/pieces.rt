//! The pieces of a range, one after the other.
ghost use Rattle.std.specs.Iterator.{YieldsFirst, item_count};
ghost use Rattle.split.specs.Pieces.{pieces_left};

use crate::splitter::Splitter;
use frame::Span;

/// What is left of a range that is split.
#[derive(Clone, Debug, PartialEq, Eq, Drop)]
pub struct Pieces {
    pub splitter: Splitter,
    pub left: Span,
}

impl Iterator for Pieces {
    type Item = Span;

    ghost next_gives = { YieldsFirst pieces_left };

    ghost remaining = { item_count pieces_left };

    fn next(&mut self) -> Option<Span> {
        let Span { from, to } = self.left;
        if from >= to {
            return None;
        }
        let piece = Span {
            from,
            to: from + self.splitter.next_length(self.left),
        };
        self.left.from = piece.to;
        Some(piece)
    }
}
