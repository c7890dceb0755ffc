//! The commands of a script in words.
ghost use Rattle.std.specs.Prelude.{Some};
ghost use Rattle.script.specs.Scripts.{placed_instruction};
ghost use Rattle.report.specs.Words.{words, listing};

use crate::hex::{Address, HexBytes};
use crate::refused::Refused;
use fault::Fault;
use script::{Command, Placed};
use std::fmt;

/// A command, behind its place.
#[derive(Clone, Copy, Debug, PartialEq, Eq)]
pub struct Words<'a>(pub Placed<'a>);

impl fmt::Display for Words<'_> {
    ghost output = { λ w. Some (words (placed_instruction w.0)) };

    fn fmt<W: fmt::Write>(&self, f: &mut fmt::Formatter<W>) -> fmt::Result {
        let Placed { place, command } = self.0;
        match command {
            Command::Read { address, length } => {
                write!(f, "@{place} read at {}, length {length}", Address(address))
            }
            Command::Write {
                address,
                length,
                data,
                mask,
            } => write!(
                f,
                "@{place} write at {}, length {length}, data [{}], mask [{}]",
                Address(address),
                HexBytes(data),
                HexBytes(mask)
            ),
            Command::Fill { address, line } => {
                write!(f, "@{place} fill at {}, line {line}", Address(address))
            }
            Command::LatencyType(value) => write!(f, "@{place} latency type {value}"),
            Command::Coverage(code) => write!(f, "@{place} coverage {code}"),
            Command::Register(number) => write!(f, "@{place} register {number}"),
            Command::Reset => write!(f, "@{place} reset"),
        }
    }
}

/// The commands of a script, one a line, and the refusal that ends it.
#[derive(Clone, Copy, Debug, PartialEq, Eq)]
pub struct Listing<'a, 'b> {
    pub commands: &'a [Placed<'b>],
    pub ending: Option<Fault<usize>>,
}

impl fmt::Display for Listing<'_, '_> {
    ghost output = { λ l. Some (listing l.commands.now l.ending) };

    fn fmt<W: fmt::Write>(&self, f: &mut fmt::Formatter<W>) -> fmt::Result {
        for placed in self.commands {
            writeln!(f, "{}", Words(*placed))?;
        }
        match self.ending {
            None => Ok(()),
            Some(fault) => writeln!(f, "{}", Refused(fault)),
        }
    }
}
