//! Writes: linear frames, one for each piece of the range rounded out to even ends.
ghost use Rattle.std.specs.Prelude.{◌≡◌, ◌+◌, ◌≤◌, length, map};
ghost use Rattle.chip.specs.Meaning.{size};
ghost use Rattle.port.specs.Carried.{CarriesOut};
ghost use Rattle.port.specs.Plans.{pieces_of, write_piece};
ghost use Rattle.port.specs.Tests.{longest};
ghost use Rattle.port.specs.Wakes.{IsReady};
ghost use Rattle.split.specs.declared.direction.Direction.TheVariants.{Write};

use crate::payload::Payload;
use crate::sending::transmit;
use crate::traffic::Traffic;
use chip::{Chip, Config, Frame, SCRATCH};
use frame::{Burst, Span};
use split::{Direction, Splitter, rounded_span};

// The bytes of the mask of the longest frame.
const MASK_SCRATCH: usize = (SCRATCH + 7) / 8;

// Writes the bytes that are not masked. No write is lost.
pub(crate) fn write<C: Chip>(chip: &mut C, payload: &Payload<'_>) -> Traffic
    requires ready { IsReady (C.Chip.meaning chip.old) }
    requires some { 1 ≤ length payload.now.«data».now }
    requires most { length payload.now.«data».now ≤ longest }
    requires inside { payload.now.start + length payload.now.«data».now
        ≤ size (C.Chip.meaning chip.old).config }
    ensures carries { CarriesOut C.Chip.meaning C.Chip.gives chip.old
        (map (write_piece payload.now.start payload.now.«data».now payload.now.mask.now)
        (pieces_of Write (C.Chip.meaning chip.old).config payload.now.start
        (length payload.now.«data».now))) result chip.new }
    ensures same { C.Chip.same_config chip.old chip.new }
{
    let Config { make, clock, .. } = chip.config();
    let splitter = Splitter::new(Direction::Write, make, &clock, clock.wl);
    let span = rounded_span(payload.start, payload.data.len() as u32).unwrap();
    let mut data = [0; SCRATCH];
    let mut mask = [0; MASK_SCRATCH];
    let mut traffic = Traffic::NONE;
    for piece in splitter.pieces(span) {
        let count = piece.bytes() as usize;
        let data = &mut data[..count];
        let mask = &mut mask[..mask::size(count)];
        payload.put_data(piece, data);
        payload.put_mask(piece, mask);
        let frame = Frame::Write {
            burst: Burst::Linear,
            start: piece.from,
            data,
            mask,
        };
        let outcome = transmit(chip, frame, &mut []);
        traffic = traffic.and_frame(outcome.low);
    }
    traffic
}
