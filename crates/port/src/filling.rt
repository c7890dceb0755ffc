//! Fills, register reads and resets.
ghost use Rattle.std.specs.Prelude.{◌≡◌, ℕ, List, ◌%◌, ◌<◌, length, true};
ghost use Rattle.chip.specs.Meaning.{size};
ghost use Rattle.chip.specs.declared.state.Phase.TheVariants.{Awake};
ghost use Rattle.port.specs.Carried.{CarriesOut};
ghost use Rattle.port.specs.Plans.{line_of, plan};
ghost use Rattle.port.specs.Requests.{fill, register, reset};
ghost use Rattle.port.specs.Serves.{IsPerformed};
ghost use Rattle.port.specs.Tests.{is_line};
ghost use Rattle.port.specs.Wakes.{IsReady};
ghost use Rattle.register.specs.Registers.{block_of_line, readable};

use crate::sending::{pulse, transmit};
use crate::served::Served;
use crate::settings::{select, set_up};
use crate::traffic::Traffic;
use chip::{Chip, Frame};
use frame::{Block, Burst};
use register::CacheLine;

// The cache line of so many bytes.
fn line_of(count: usize) -> CacheLine
    ensures { result ≡ line_of count }
{
    match count {
        16 => CacheLine::Bytes16,
        32 => CacheLine::Bytes32,
        _ => CacheLine::Bytes64,
    }
}

// The block that the read of a line wraps in.
fn block_of(line: CacheLine) -> Block
    ensures { result ≡ block_of_line line }
{
    match line {
        CacheLine::Bytes16 => Block::Bytes16,
        CacheLine::Bytes32 => Block::Bytes32,
        CacheLine::Bytes64 => Block::Bytes64,
    }
}

// Fills a cache line from a start in it on: a wrapped read by 00h, which goes by MR8.
pub(crate) fn fill<C: Chip>(chip: &mut C, start: u32, buffer: &mut [u8]) -> Served
    requires ready { IsReady (C.Chip.meaning chip.old) }
    requires line { is_line (length buffer.old) ≡ true }
    requires even { start % 2 ≡ 0 }
    requires inside { start < size (C.Chip.meaning chip.old).config }
    ensures performed { IsPerformed C.Chip.meaning C.Chip.gives chip.old
        (fill start (length buffer.old)) buffer.old result buffer.new chip.new }
    ensures same { C.Chip.same_config chip.old chip.new }
{
    let line = line_of(buffer.len());
    let selected = select(chip, line);
    let burst = Burst::Wrapped(block_of(line));
    let outcome = transmit(chip, Frame::Read { burst, start }, buffer);
    Served {
        answer: outcome.answer,
        traffic: selected.and_frame(outcome.low),
    }
}

// Reads a register; the caller's buffer is not touched.
pub(crate) fn read_register<C: Chip>(chip: &mut C, number: u8) -> Served
    requires ready { IsReady (C.Chip.meaning chip.old) }
    requires there { readable number ≡ true }
    ensures performed { (buffer : List ℕ) → IsPerformed C.Chip.meaning C.Chip.gives chip.old
        (register number) buffer result buffer chip.new }
    ensures same { C.Chip.same_config chip.old chip.new }
{
    let outcome = transmit(chip, Frame::RegisterRead { number }, &mut []);
    Served {
        answer: outcome.answer,
        traffic: Traffic::NONE.and_frame(outcome.low),
    }
}

// Resets the chip by a pulse, and sets it up again.
pub(crate) fn reset<C: Chip>(chip: &mut C) -> Traffic
    requires { (C.Chip.meaning chip.old).state.phase ≡ Awake }
    ensures carries { CarriesOut C.Chip.meaning C.Chip.gives chip.old
        (plan (C.Chip.meaning chip.old).config (C.Chip.meaning chip.old).state reset)
        result chip.new }
    ensures same { C.Chip.same_config chip.old chip.new }
{
    pulse(chip);
    set_up(chip)
}
