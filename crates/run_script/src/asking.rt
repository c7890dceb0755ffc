//! What the commands of a script ask of a port.
ghost use Rattle.std.specs.Prelude.{◌≡◌, map, IfOk};
ghost use Rattle.script.specs.Commands.{instruction_of};
ghost use Rattle.script.specs.Scripts.{placed_instructions};
ghost use Rattle.runs.specs.Serving.{asked};
ghost use Rattle.run_script.specs.Sessions.{asked_by, asked_by_all};

use port::Request;
use runs::Call;
use script::{Command, Placed};
use std::alloc::{AllocError, Global};

// The call of a command: a read and a fill have as many bytes as they say.
fn call_of(command: Command<'_>) -> Call<'_>
    ensures { asked result ≡ asked_by (instruction_of command.entry) }
{
    let (request, room) = match command {
        Command::Read { address, length } => {
            (Request::Read { start: address }, usize::from(length))
        }
        Command::Write {
            address,
            data,
            mask,
            ..
        } => {
            let request = Request::Write {
                start: address,
                data,
                mask,
            };
            (request, 0)
        }
        Command::Fill { address, line } => (Request::Fill { start: address }, usize::from(line)),
        Command::LatencyType(value) => (Request::LatencyType(value), 0),
        Command::Coverage(code) => (Request::Coverage(code), 0),
        Command::Register(number) => (Request::Register(number), 0),
        Command::Reset => (Request::Reset, 0),
    };
    Call { request, room }
}

/// The calls of commands, one each.
pub(crate) fn calls<'a>(alloc: Global, commands: &[Placed<'a>]) -> Result<Vec<Call<'a>>, AllocError>
    ensures { IfOk result (λ calls.
        map asked calls.items ≡ asked_by_all (placed_instructions commands.now)) }
{
    let mut calls = Vec::with_capacity(alloc, commands.len())?;
    for placed in commands {
        calls.push(call_of(placed.command))?;
    }
    Ok(calls)
}
