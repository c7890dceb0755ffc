//! The port of one chip: unwoken, and woken.

ghost use Rattle.std.specs.Prelude.{◌≡◌, ◌↔◌, [], length, IsOk, IfOk, IfErr};
ghost use Rattle.chip.specs.declared.state.Phase.TheVariants.{Unwoken};
ghost use Rattle.fault.specs.Refusals.{details, refuses};
ghost use Rattle.fault.specs.declared.Layer.TheVariants.{Chip as ChipLayer};
ghost use Rattle.port.specs.Wakes.{IsReady};

use crate::performing::perform;
use crate::refusing::refusal;
use crate::request::Request;
use crate::sending::wake;
use crate::served::Served;
use crate::settings::set_up;
use crate::traffic::Traffic;
use chip::{Chip, Phase};
use fault::{Refusal, Returned};

/// A port over a chip that is not awake. All that it takes is the call that wakes it.
#[derive(Drop)]
pub struct UnwokenPort<C: Chip> {
    chip: C,
    ghost unwoken: { (C.Chip.meaning chip).state.phase ≡ Unwoken },
}

/// A port over a chip that is awake, with the latencies that its clock needs.
#[derive(Drop)]
pub struct WokenPort<C: Chip> {
    chip: C,
    // no strobe came, and there was no reset since
    lost: bool,
    ghost ready: { IsReady (C.Chip.meaning chip) },
}

impl<C: Chip> UnwokenPort<C> {
    ghost use Rattle.port.specs.Wakes.{IsWoken};

    /// A port over this chip. Refused by 13 where the chip is awake; then it comes back.
    pub fn new(chip: C) -> Result<UnwokenPort<C>, Returned<C>>
        ensures made { IsOk result ↔ ((C.Chip.meaning chip).state.phase ≡ Unwoken) }
        ensures over { IfOk result (λ port. port.chip ≡ chip) }
        ensures refused { IfErr result (λ e. details e.fault.refusal ≡ refuses ChipLayer 13) }
        ensures place { IfErr result (λ e. e.fault.place ≡ 0) }
        ensures back { IfErr result (λ e. e.value ≡ chip) }
    {
        match chip.state().phase {
            Phase::Unwoken => Ok(UnwokenPort { chip }),
            Phase::Awake => Err(Returned {
                fault: Refusal::WrongPhase.at(0),
                value: chip,
            }),
        }
    }

    /// Wakes the chip: a global reset after tPU, and the registers for the clock. Answers the woken
    /// port, and the traffic.
    pub fn wake(self) -> (WokenPort<C>, Traffic)
        ensures wakes { IsWoken C.Chip.meaning C.Chip.gives self.chip
            result.0.chip result.0.lost result.1 }
        ensures same { C.Chip.same_config self.chip result.0.chip }
    {
        let mut chip = self.chip;
        let first = wake(&mut chip);
        let second = set_up(&mut chip);
        let port = WokenPort { chip, lost: false };
        (port, first.and(second))
    }
}

impl<C: Chip> WokenPort<C> {
    ghost use Rattle.port.specs.Requests.{requested, read, write, fill, latency_type, coverage, register, reset};
    ghost use Rattle.port.specs.Serves.{IsServed, woken};

    /// Serves a request: refuses it before any frame, with nothing changed, or does what it comes
    /// to. A buffer that the request does not fill stays as it was.
    pub fn request(&mut self, request: Request<'_>, buffer: &mut [u8]) -> Served
        ensures serves { IsServed C.Chip.meaning C.Chip.gives
            (woken self.old.chip self.old.lost) (requested request.entry (length buffer.old))
            buffer.old result buffer.new (woken self.new.chip self.new.lost) }
        ensures same { C.Chip.same_config self.old.chip self.new.chip }
    {
        if let Some(refusal) = refusal(&self.chip, self.lost, request, buffer.len()) {
            return Served {
                answer: Err(refusal.at(request.place())),
                traffic: Traffic::NONE,
            };
        }
        let served = perform(&mut self.chip, request, buffer);
        self.lost = served.answer.is_err();
        served
    }

    /// Reads as many bytes from an address on as the buffer has.
    pub fn read(&mut self, start: u32, buffer: &mut [u8]) -> Served
        ensures serves { IsServed C.Chip.meaning C.Chip.gives
            (woken self.old.chip self.old.lost) (read start (length buffer.old))
            buffer.old result buffer.new (woken self.new.chip self.new.lost) }
        ensures same { C.Chip.same_config self.old.chip self.new.chip }
    {
        self.request(Request::Read { start }, buffer)
    }

    /// Writes data from an address on, but for the bytes that the mask has a bit for.
    pub fn write(&mut self, start: u32, data: &[u8], mask: &[u8]) -> Served
        ensures serves { IsServed C.Chip.meaning C.Chip.gives
            (woken self.old.chip self.old.lost) (write start «data».now mask.now)
            [] result [] (woken self.new.chip self.new.lost) }
        ensures same { C.Chip.same_config self.old.chip self.new.chip }
    {
        self.request(Request::Write { start, data, mask }, &mut [])
    }

    /// Fills a buffer of 16, 32 or 64 bytes with the cache line of its length that an even address
    /// lies in, from that address to the line's end and then from its beginning.
    pub fn fill(&mut self, start: u32, line: &mut [u8]) -> Served
        ensures serves { IsServed C.Chip.meaning C.Chip.gives
            (woken self.old.chip self.old.lost) (fill start (length line.old))
            line.old result line.new (woken self.new.chip self.new.lost) }
        ensures same { C.Chip.same_config self.old.chip self.new.chip }
    {
        self.request(Request::Fill { start }, line)
    }

    /// Sets the latency type: 0 variable, 1 fixed.
    pub fn set_latency_type(&mut self, code: u8) -> Served
        ensures serves { IsServed C.Chip.meaning C.Chip.gives
            (woken self.old.chip self.old.lost) (latency_type code)
            [] result [] (woken self.new.chip self.new.lost) }
        ensures same { C.Chip.same_config self.old.chip self.new.chip }
    {
        self.request(Request::LatencyType(code), &mut [])
    }

    /// Sets which part of the array is refreshed (PASR), by its code, 0 to 7.
    pub fn set_coverage(&mut self, code: u8) -> Served
        ensures serves { IsServed C.Chip.meaning C.Chip.gives
            (woken self.old.chip self.old.lost) (coverage code)
            [] result [] (woken self.new.chip self.new.lost) }
        ensures same { C.Chip.same_config self.old.chip self.new.chip }
    {
        self.request(Request::Coverage(code), &mut [])
    }

    /// Reads a register: 0 to 4 and 8.
    pub fn read_register(&mut self, number: u8) -> Served
        ensures serves { IsServed C.Chip.meaning C.Chip.gives
            (woken self.old.chip self.old.lost) (register number)
            [] result [] (woken self.new.chip self.new.lost) }
        ensures same { C.Chip.same_config self.old.chip self.new.chip }
    {
        self.request(Request::Register(number), &mut [])
    }

    /// Resets the chip by a pulse of tRP, and sets it up again. Whatever was in the memory is free
    /// after it. Always taken.
    pub fn reset(&mut self) -> Served
        ensures serves { IsServed C.Chip.meaning C.Chip.gives
            (woken self.old.chip self.old.lost) reset
            [] result [] (woken self.new.chip self.new.lost) }
        ensures same { C.Chip.same_config self.old.chip self.new.chip }
    {
        self.request(Request::Reset, &mut [])
    }

    /// Takes the port apart: its chip, and the chip's own counts since the wake frame, each of which
    /// stays at 2^64 - 1.
    pub fn close(self) -> (C, Traffic)
        ensures chip { result.0 ≡ self.chip }
        ensures frames { result.1.frames ≡ (C.Chip.meaning self.chip).state.frames }
        ensures clocks { result.1.clocks ≡ (C.Chip.meaning self.chip).state.clocks }
    {
        let state = self.chip.state();
        let counts = Traffic {
            frames: state.frames,
            clocks: state.clocks,
        };
        (self.chip, counts)
    }
}
