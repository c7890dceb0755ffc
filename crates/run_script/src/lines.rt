//! The text of a report.
ghost use Rattle.std.specs.Prelude.{◌≡◌, ◌++◌, map, string_bytes, IfOk, OnOk};
ghost use Rattle.script.specs.Commands.{instruction_of};
ghost use Rattle.script.specs.Scripts.{placed_instruction, placed_instructions};
ghost use Rattle.report.specs.CommandLines.{entry_of};
ghost use Rattle.report.specs.FirstLines.{first_line_of};
ghost use Rattle.runs.specs.Serving.{came};
ghost use Rattle.run_script.specs.Lines.{byte_of, taken, entry_for, command_lines, report_of};

use chip::Reply;
use fault::Fault;
use report::{FirstLine, Line, Refused};
use runs::Response;
use script::{Command, Placed};
use std::alloc::{AllocError, Global};
use std::fmt::Write;

// The byte that a register read is answered with.
fn byte_of(reply: Reply) -> u8
    ensures { result ≡ byte_of reply }
{
    match reply {
        Reply::Done => 0,
        Reply::Register(byte) => byte,
    }
}

// The line of a command that was taken.
fn line_of_taken<'a>(command: Command<'a>, reply: Reply, response: &'a Response) -> Line<'a>
    ensures { entry_of result ≡ taken (instruction_of command.entry) reply (came response.now) }
{
    let traffic = response.traffic;
    let data = response.bytes.as_slice();
    match command {
        Command::Read { address, .. } => Line::Read {
            address,
            data,
            traffic,
        },
        Command::Write {
            address,
            length,
            mask,
            ..
        } => Line::Write {
            address,
            length,
            mask,
            traffic,
        },
        Command::Fill { address, .. } => Line::Fill {
            address,
            data,
            traffic,
        },
        Command::LatencyType(value) => Line::LatencyType { value, traffic },
        Command::Coverage(code) => Line::Coverage { code, traffic },
        Command::Register(number) => Line::Register {
            number,
            byte: byte_of(reply),
            traffic,
        },
        Command::Reset => Line::Reset { traffic },
    }
}

// The line of a command, by what came of it.
fn line_of<'a>(placed: Placed<'a>, response: &'a Response) -> Line<'a>
    ensures { entry_of result ≡ entry_for (placed_instruction placed.entry) (came response.now) }
{
    match response.answer {
        Ok(reply) => line_of_taken(placed.command, reply, response),
        Err(fault) => Line::Refused(fault.refusal.at(placed.place)),
    }
}

// Puts the lines of commands behind a text.
fn put_lines(
    text: &mut String,
    commands: &[Placed<'_>],
    responses: &[Response],
) -> Result<(), AllocError>
    ensures { OnOk result (string_bytes text.new ≡ string_bytes text.old
        ++ command_lines (placed_instructions commands.now) (map came responses.now)) }
{
    for (placed, response) in commands.iter().zip(responses) {
        writeln!(text, "{}", line_of(*placed, response))?;
    }
    Ok(())
}

/// The report: its first line, the lines of its commands, and the refusal that ends the script.
pub(crate) fn report_of(
    alloc: Global,
    first: FirstLine,
    commands: &[Placed<'_>],
    responses: &[Response],
    ending: Option<Fault<usize>>,
) -> Result<String, AllocError>
    ensures { IfOk result (λ text. string_bytes text ≡ report_of (first_line_of first.0)
        (placed_instructions commands.now) (map came responses.now) ending) }
{
    let mut text = format!(in alloc; "{first}\n")?;
    put_lines(&mut text, commands, responses)?;
    if let Some(fault) = ending {
        writeln!(text, "{}", Refused(fault))?;
    }
    Ok(text)
}
