//! The line of a refusal.
ghost use Rattle.std.specs.Option.{option_map};
ghost use Rattle.fault.specs.Refusals.{details};
ghost use Rattle.report.specs.Lines.{refusal_at};

use fault::{Details, Fault};
use std::fmt;

/// A refusal: its number in two digits, its place, and where the strobe was lost the good bytes.
#[derive(Clone, Copy, Debug, PartialEq, Eq)]
pub struct Refused<P>(pub Fault<P>);

impl<P: fmt::Display> fmt::Display for Refused<P> {
    ghost output = { λ r. option_map (refusal_at (details r.0.refusal)) (P.output r.0.place) };

    fn fmt<W: fmt::Write>(&self, f: &mut fmt::Formatter<W>) -> fmt::Result {
        let Details { number, good, .. } = self.0.refusal.details();
        let tens = number / 10;
        let units = number % 10;
        let place = &self.0.place;
        match good {
            None => write!(f, "! {tens}{units} @{place}"),
            Some(k) => write!(f, "! {tens}{units} @{place} k={k}"),
        }
    }
}
