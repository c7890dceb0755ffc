//! One command of a script.
ghost use Rattle.std.specs.Prelude.{◌≡◌, ◌↔◌, ◌+◌, ◌≤◌, length, take, drop, IsOk, IfOk, IfErr};
ghost use Rattle.mask.specs.Masks.{size};

use fault::Refusal;

/// What a command says. Lines, types, coverages and registers stay bytes: the port refuses those that
/// name nothing.
#[derive(Clone, Copy, Debug, PartialEq, Eq)]
pub enum Command<'a> {
    /// R: so many bytes from an address on.
    Read {
        address: u32,
        length: u16,
    },
    /// W: so many bytes from an address on. The data and the mask are the script's own bytes.
    Write {
        address: u32,
        length: u16,
        data: &'a [u8],
        mask: &'a [u8],
    },
    /// F: the line of so many bytes that an address lies in.
    Fill {
        address: u32,
        line: u8,
    },
    /// L
    LatencyType(u8),
    /// P
    Coverage(u8),
    /// Q
    Register(u8),
    /// Z
    Reset,
}

// The data and the mask of a write of so many bytes, and what follows them.
fn data_and_mask(count: u16, bytes: &[u8]) -> Result<(&[u8], &[u8], &[u8]), Refusal>
    ensures taken { IsOk result ↔ (count + size count ≤ length bytes.now) }
    ensures data { IfOk result (λ p. p.0.now ≡ take count bytes.now) }
    ensures mask { IfOk result (λ p. p.1.now ≡ take (size count) (drop count bytes.now)) }
    ensures rest { IfOk result (λ p. p.2.now ≡ drop (count + size count) bytes.now) }
    ensures refused { IfErr result (λ e. e ≡ Refusal.CommandCutShort) }
{
    let count = usize::from(count);
    let (data, rest) = bytes
        .split_at_checked(count)
        .ok_or(Refusal::CommandCutShort)?;
    let (mask, rest) = rest
        .split_at_checked(mask::size(count))
        .ok_or(Refusal::CommandCutShort)?;
    Ok((data, mask, rest))
}

impl<'a> Command<'a> {
    ghost use Rattle.std.specs.Prelude.{◌≡◌, ◌↔◌, drop, Some, None, IsOk, IfOk, IfErr};
    ghost use Rattle.script.specs.Commands.{command_refusal, instruction_at_front, instruction_of, width_of};

    /// Reads the command at the front of a script, and answers it with the rest. Refused by 4 where
    /// its letter is unknown, by 5 where it passes the end or there is none.
    pub fn parse(script: &'a [u8]) -> Result<(Command<'a>, &'a [u8]), Refusal>
        ensures taken { IsOk result ↔ (command_refusal script.now ≡ None) }
        ensures command { IfOk result (λ p.
            instruction_at_front script.now ≡ Some (instruction_of p.0)) }
        ensures rest { IfOk result (λ p.
            p.1.now ≡ drop (width_of (instruction_of p.0)) script.now) }
        ensures refused { IfErr result (λ e. command_refusal script.now ≡ Some e) }
    {
        let [letter, operands @ ..] = script else {
            return Err(Refusal::CommandCutShort);
        };
        match (char::from(*letter), operands) {
            ('R', [a2, a1, a0, n1, n0, rest @ ..]) => {
                let command = Command::Read {
                    address: u32::from_be_bytes([0, *a2, *a1, *a0]),
                    length: u16::from_be_bytes([*n1, *n0]),
                };
                Ok((command, rest))
            }
            ('W', [a2, a1, a0, n1, n0, rest @ ..]) => {
                let length = u16::from_be_bytes([*n1, *n0]);
                let (data, mask, rest) = data_and_mask(length, rest)?;
                let command = Command::Write {
                    address: u32::from_be_bytes([0, *a2, *a1, *a0]),
                    length,
                    data,
                    mask,
                };
                Ok((command, rest))
            }
            ('F', [a2, a1, a0, line, rest @ ..]) => {
                let command = Command::Fill {
                    address: u32::from_be_bytes([0, *a2, *a1, *a0]),
                    line: *line,
                };
                Ok((command, rest))
            }
            ('L', [value, rest @ ..]) => Ok((Command::LatencyType(*value), rest)),
            ('P', [code, rest @ ..]) => Ok((Command::Coverage(*code), rest)),
            ('Q', [number, rest @ ..]) => Ok((Command::Register(*number), rest)),
            ('Z', rest) => Ok((Command::Reset, rest)),
            ('R' | 'W' | 'F' | 'L' | 'P' | 'Q', _) => Err(Refusal::CommandCutShort),
            _ => Err(Refusal::UnknownCommand),
        }
    }
}
