//! What a request that is taken comes to.
ghost use Rattle.std.specs.Prelude.{◌≡◌, false, length, None};
ghost use Rattle.port.specs.Requests.{requested, refusal};
ghost use Rattle.port.specs.Serves.{IsPerformed};
ghost use Rattle.port.specs.Wakes.{IsReady};

use crate::filling::{fill, read_register, reset};
use crate::payload::Payload;
use crate::reading::read;
use crate::request::Request;
use crate::served::Served;
use crate::settings::{set_coverage, set_latency_type};
use crate::traffic::Traffic;
use crate::writing::write;
use chip::{Chip, Reply};
use register::{LatencyType, Mr4};

// Everything was sent, and answered.
fn done(traffic: Traffic) -> Served
    ensures { result ≡ record { answer = Ok Reply.Done; traffic = traffic } }
{
    Served {
        answer: Ok(Reply::Done),
        traffic,
    }
}

// Does what a request comes to, up to its end or to a frame that is lost.
pub(crate) fn perform<C: Chip>(chip: &mut C, request: Request<'_>, buffer: &mut [u8]) -> Served
    requires ready { IsReady (C.Chip.meaning chip.old) }
    requires taken { refusal (C.Chip.meaning chip.old) false
        (requested request (length buffer.old)) ≡ None }
    ensures performed { IsPerformed C.Chip.meaning C.Chip.gives chip.old
        (requested request.entry (length buffer.old)) buffer.old result buffer.new chip.new }
    ensures same { C.Chip.same_config chip.old chip.new }
{
    match request {
        Request::Read { start } => read(chip, start, buffer),
        Request::Write { start, data, mask } => {
            done(write(chip, &Payload { start, data, mask }))
        }
        Request::Fill { start } => fill(chip, start, buffer),
        Request::LatencyType(code) => {
            let latency_type = if code == 1 {
                LatencyType::Fixed
            } else {
                LatencyType::Variable
            };
            done(set_latency_type(chip, latency_type))
        }
        Request::Coverage(code) => done(set_coverage(chip, Mr4::from(code).coverage)),
        Request::Register(number) => read_register(chip, number),
        Request::Reset => done(reset(chip)),
    }
}
