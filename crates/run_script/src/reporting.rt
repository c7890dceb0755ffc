//! From the bytes of a script to those of its report.
ghost use Rattle.std.specs.Prelude.{◌≡◌, None, string_bytes, IfOk};
ghost use Rattle.script.specs.Openings.{opening_refusal, fields_at_front, fields_of};
ghost use Rattle.run_script.specs.Reports.{ReportsCommands, Reports};

use crate::chips::responses;
use crate::lines::report_of;
use report::{FirstLine, first_line};
use script::{Opening, list};
use std::alloc::{AllocError, Global};

// The report of a script with this opening.
fn report_of_commands(alloc: Global, script: &[u8], opening: Opening) -> Result<String, AllocError>
    requires taken { opening_refusal script.now ≡ None }
    requires opening { fields_of opening ≡ fields_at_front script.now }
    ensures { IfOk result (λ text. ReportsCommands script.now (string_bytes text)) }
{
    let mut commands = Vec::new(alloc);
    let ending = list(opening.commands(script), &mut commands)?;
    let responses = responses(alloc, &opening, &commands)?;
    let first = FirstLine(Ok(opening));
    report_of(alloc, first, &commands, &responses, ending)
}

/// The report of a script: the line of its opening, a line for each command, and the refusal that
/// ends it; or the refusal of its opening. Each line ends with a line feed.
pub fn report(alloc: Global, script: &[u8]) -> Result<Vec<u8>, AllocError>
    ensures { IfOk result (λ text. Reports script.now text.items) }
{
    let first = first_line(script);
    let text = match first.0 {
        Ok(opening) => report_of_commands(alloc, script, opening)?,
        Err(_) => report_of(alloc, first, &[], &[], None)?,
    };
    Ok(text.into_bytes())
}
