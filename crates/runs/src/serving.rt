//! Serving a list of requests.
ghost use Rattle.std.specs.Prelude.{◌≡◌, ℕ, ◌<◌, take, length, IfOk, OnOk, OnErr};
ghost use Rattle.port.specs.Requests.{requested};
ghost use Rattle.port.specs.Serves.{Serves, Transaction, woken};
ghost use Rattle.runs.specs.Histories.{bytes_read};
ghost use Rattle.runs.specs.LastWrites.{ReadsReturnLastWrite};
ghost use Rattle.runs.specs.Shorts.{ShortAndFew};
ghost use Rattle.runs.specs.Twins.{IsMeant, TwinPortsAnswerAlike};

use chip::{Chip, Reply};
use fault::Fault;
use port::{Request, Served, Traffic, WokenPort};
use std::alloc::{AllocError, Global};

/// One request, with the size of its buffer: as many bytes as a read or a fill asks for.
#[derive(Clone, Copy, Debug, PartialEq, Eq)]
pub struct Call<'a> {
    pub request: Request<'a>,
    pub room: usize,
}

/// What came of one call.
#[derive(Debug, Drop)]
pub struct Response {
    pub answer: Result<Reply, Fault>,
    pub traffic: Traffic,
    /// The bytes that were read: all that were asked for, those that came before the strobe was
    /// lost, or none.
    pub bytes: Vec<u8>,
}

// How many bytes a request with this answer has read into a buffer of this size.
fn bytes_read(request: Request<'_>, answer: Result<Reply, Fault>, room: usize) -> usize
    ensures { result ≡ bytes_read (requested request.entry room) answer }
{
    match request {
        Request::Read { .. } | Request::Fill { .. } => match answer {
            Ok(_) => room,
            Err(fault) => fault.refusal.details().good.unwrap_or(0) as usize,
        },
        Request::Write { .. }
        | Request::LatencyType(_)
        | Request::Coverage(_)
        | Request::Register(_)
        | Request::Reset => 0,
    }
}

// The first bytes of a buffer. One of which there is none is let go.
fn first_of(alloc: Global, mut bytes: Vec<u8>, count: usize) -> Vec<u8>
    ensures { result.items ≡ take count bytes.items }
{
    if count == 0 {
        return Vec::new(alloc);
    }
    bytes.truncate(count);
    bytes
}

ghost use Rattle.runs.specs.Serving.{ServesOne, ServesAll};

// Serves one call, and puts what came of it behind the responses that are there. Where memory is
// wanting, nothing is sent.
fn respond<C: Chip>(
    alloc: Global,
    port: &mut WokenPort<C>,
    call: Call<'_>,
    responses: &mut Vec<Response>,
) -> Result<(), AllocError>
    ensures ok { OnOk result (ServesOne C.Chip.meaning C.Chip.gives
        (woken port.old.chip port.old.lost) call.entry responses.old.items responses.new.items
        (woken port.new.chip port.new.lost)) }
    ensures unsent { OnErr result (port.new ≡ port.old) }
    ensures unlisted { OnErr result (responses.new.items ≡ responses.old.items) }
    ensures same { C.Chip.same_config port.old.chip port.new.chip }
{
    responses.reserve(1)?;
    let mut bytes = vec![in alloc; 0; call.room]?;
    let Served { answer, traffic } = port.request(call.request, &mut bytes);
    let count = bytes_read(call.request, answer, call.room);
    responses.push(Response {
        answer,
        traffic,
        bytes: first_of(alloc, bytes, count),
    })?;
    Ok(())
}

/// Serves calls one after another, and puts what came of each behind the responses that are there.
/// Where memory is wanting, the first of them are served, and nothing of the others is sent.
///
/// The last four clauses are true of every history of this port: of whatever it was asked for since
/// it was woken, by whichever calls.
#[tactic(auto, using(crate::proofs::LastWrites::reads_return_last_write))]
pub fn serve<C: Chip>(
    alloc: Global,
    port: &mut WokenPort<C>,
    calls: &[Call<'_>],
    responses: &mut Vec<Response>,
) -> Result<(), AllocError>
    ensures ok { OnOk result (ServesAll C.Chip.meaning C.Chip.gives
        (woken port.old.chip port.old.lost) calls.now responses.old.items responses.new.items
        (woken port.new.chip port.new.lost)) }
    ensures err { OnErr result ((n : ℕ) × (n < length calls.now)
        × ServesAll C.Chip.meaning C.Chip.gives
        (woken port.old.chip port.old.lost) (take n calls.now) responses.old.items
        responses.new.items (woken port.new.chip port.new.lost)) }
    ensures same { C.Chip.same_config port.old.chip port.new.chip }
    ensures reads_return_last_write { ReadsReturnLastWrite C.Chip.meaning C.Chip.gives }
    ensures twin_ports_answer_alike { TwinPortsAnswerAlike C.Chip.meaning C.Chip.gives }
    ensures meant { IsMeant C.Chip.meaning C.Chip.gives }
    ensures short_and_few { ShortAndFew C.Chip.meaning C.Chip.gives }
{
    for call in calls {
        respond(alloc, port, *call, responses)?;
    }
    Ok(())
}
