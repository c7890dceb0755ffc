//! The line that a report begins with.
ghost use Rattle.std.specs.Prelude.{◌≡◌, ◌↔◌, Some, None, IsOk, IfOk, IfErr};
ghost use Rattle.script.specs.Openings.{opening_refusal, fields_of, fields_at_front};
ghost use Rattle.report.specs.FirstLines.{first_line_of};
ghost use Rattle.report.specs.Lines.{first_line};

use crate::refused::Refused;
use fault::Fault;
use script::Opening;
use std::fmt;

/// What the report of a script begins with. Of an opening: chip, pages, clock in kHz, period in
/// picoseconds.
#[derive(Clone, Copy, Debug, PartialEq, Eq)]
pub struct FirstLine(pub Result<Opening, Fault>);

impl fmt::Display for FirstLine {
    ghost output = { λ l. Some (first_line_of l.0) };

    fn fmt<W: fmt::Write>(&self, f: &mut fmt::Formatter<W>) -> fmt::Result {
        match self.0 {
            Ok(opening) => write!(
                f,
                "{} {} {} {}",
                opening.make,
                opening.pages,
                opening.clock.khz,
                opening.clock.period()
            ),
            Err(fault) => write!(f, "{}", Refused(fault)),
        }
    }
}

/// The line that the report of a script begins with: its first line, or the refusal of its opening.
pub fn first_line(script: &[u8]) -> FirstLine
    ensures line { first_line_of result.0 ≡ first_line script.now }
    ensures taken { IsOk result.0 ↔ (opening_refusal script.now ≡ None) }
    ensures ok { IfOk result.0 (λ o. fields_of o ≡ fields_at_front script.now) }
    ensures refused { IfErr result.0 (λ f. opening_refusal script.now ≡ Some f.refusal) }
    ensures place { IfErr result.0 (λ f. f.place ≡ 0) }
{
    FirstLine(Opening::parse(script))
}
