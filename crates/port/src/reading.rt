//! Reads: linear frames, one for each piece of the range rounded out to even ends.
ghost use Rattle.std.specs.Prelude.{◌≡◌, ◌+◌, ◌≤◌, ◌++◌, length, take, drop};
ghost use Rattle.chip.specs.Meaning.{size};
ghost use Rattle.port.specs.Answers.{buffer_with};
ghost use Rattle.port.specs.Requests.{read};
ghost use Rattle.port.specs.Serves.{IsPerformed};
ghost use Rattle.port.specs.Tests.{longest};
ghost use Rattle.port.specs.Wakes.{IsReady};

use crate::sending::transmit;
use crate::served::Served;
use crate::traffic::Traffic;
use chip::{Chip, Config, Frame, Reply, SCRATCH};
use fault::Refusal;
use frame::Burst;
use split::{Direction, Splitter, rounded_span};

// Lays bytes into a buffer from a place on, as far as it reaches.
fn lay(buffer: &mut [u8], place: usize, bytes: &[u8])
    requires { place ≤ length buffer.old }
    ensures { buffer.new ≡ take place buffer.old ++ buffer_with (drop place buffer.old) bytes.now }
{
    let count = bytes.len().min(buffer.len() - place);
    buffer[place..place + count].copy_from_slice(&bytes[..count]);
}

// Fills a buffer from a start on, or as much of it as whole frames brought before one was lost.
pub(crate) fn read<C: Chip>(chip: &mut C, start: u32, buffer: &mut [u8]) -> Served
    requires ready { IsReady (C.Chip.meaning chip.old) }
    requires some { 1 ≤ length buffer.old }
    requires most { length buffer.old ≤ longest }
    requires inside { start + length buffer.old ≤ size (C.Chip.meaning chip.old).config }
    ensures performed { IsPerformed C.Chip.meaning C.Chip.gives chip.old
        (read start (length buffer.old)) buffer.old result buffer.new chip.new }
    ensures same { C.Chip.same_config chip.old chip.new }
{
    let Config { make, clock, .. } = chip.config();
    let splitter = Splitter::new(Direction::Read, make, &clock, clock.lc);
    let span = rounded_span(start, buffer.len() as u32).unwrap();
    let mut scratch = [0; SCRATCH];
    let mut traffic = Traffic::NONE;
    for piece in splitter.pieces(span) {
        let bytes = &mut scratch[..piece.bytes() as usize];
        let frame = Frame::Read {
            burst: Burst::Linear,
            start: piece.from,
        };
        let outcome = transmit(chip, frame, bytes);
        traffic = traffic.and_frame(outcome.low);
        let place = piece.from.saturating_sub(start);
        if outcome.answer.is_err() {
            return Served {
                answer: Err(Refusal::NoStrobe(place).at(start)),
                traffic,
            };
        }
        // the byte in front of an odd start is left out
        let added = start.saturating_sub(piece.from) as usize;
        lay(buffer, place as usize, &bytes[added..]);
    }
    Served {
        answer: Ok(Reply::Done),
        traffic,
    }
}
