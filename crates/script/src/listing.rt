//! The commands of a script, in order, with their places.
ghost use Rattle.std.specs.Prelude.{◌≡◌, ◌+◌, ◌≤◌, length, vec_len, vec_capacity, Ok, Some, IsOk, IfOk, OnErr, IfSome, OnSome, IfNone};
ghost use Rattle.fault.specs.Refusals.{fault_at};
ghost use Rattle.script.specs.Openings.{opening_refusal, commands_of};
ghost use Rattle.script.specs.Scripts.{ListsAll, ListsFirst, ScriptComesBack};

use crate::command::Command;
use crate::opening::Opening;
use fault::Fault;
use std::alloc::{AllocError, Allocator};

/// A command with the place of its letter, counted from the first command's.
#[derive(Clone, Copy, Debug, PartialEq, Eq)]
pub struct Placed<'a> {
    pub place: usize,
    pub command: Command<'a>,
}

/// Lists the commands of a script behind those that are listed already, up to the script's end or
/// the first command that is refused: by 4 or 5, at the place of its letter.
pub fn list<'a, A: Allocator>(
    script: &'a [u8],
    commands: &mut Vec<Placed<'a>, A>,
) -> Result<Option<Fault<usize>>, AllocError>
    ensures ok { IfOk result (λ end.
        ListsAll script.now commands.old.items commands.new.items end) }
    ensures err { OnErr result (ListsFirst script.now commands.old.items commands.new.items) }
    ensures room { vec_len commands.old + length script.now ≤ vec_capacity commands.old
        → IsOk result }
    ensures full { OnErr result (vec_capacity commands.old ≤ vec_len commands.new) }
{
    let mut rest = script;
    while !rest.is_empty() {
        let place = script.len() - rest.len();
        match Command::parse(rest) {
            Ok((command, after)) => {
                commands.push(Placed { place, command })?;
                rest = after;
            }
            Err(refusal) => return Ok(Some(refusal.at(place))),
        }
    }
    Ok(None)
}

/// Reads a whole script: lists its commands, and answers how it ends. An opening that is refused
/// ends it by 1, 2 or 3, at place 0.
pub fn read<'a, A: Allocator>(
    script: &'a [u8],
    commands: &mut Vec<Placed<'a>, A>,
) -> Result<Option<Fault<usize>>, AllocError>
    ensures refused { IfSome (opening_refusal script.now)
        (λ e. result ≡ Ok (Some (fault_at e 0))) }
    ensures unlisted { OnSome (opening_refusal script.now)
        (commands.new.items ≡ commands.old.items) }
    ensures ok { IfNone (opening_refusal script.now) (IfOk result (λ end.
        ListsAll (commands_of script.now) commands.old.items commands.new.items end)) }
    ensures err { IfNone (opening_refusal script.now) (OnErr result
        (ListsFirst (commands_of script.now) commands.old.items commands.new.items)) }
    ensures comes_back { IfOk result (λ end.
        ScriptComesBack script.now commands.old.items commands.new.items end) }
    ensures room { vec_len commands.old + length script.now ≤ vec_capacity commands.old
        → IsOk result }
    ensures full { OnErr result (vec_capacity commands.old ≤ vec_len commands.new) }
{
    match Opening::parse(script) {
        Ok(opening) => list(opening.commands(script), commands),
        Err(fault) => Ok(Some(fault.refusal.at(0))),
    }
}
