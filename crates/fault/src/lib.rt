//! What is refused and why: one closed list, in checking order, and the place of a refusal.
#![tactic(auto)]

ghost use Rattle.std.specs.Prelude.{◌≡◌, Some};
ghost use Rattle.std.specs.Option.{option_map};
ghost use Rattle.fault.specs.Names.{layer_name};
ghost use Rattle.fault.specs.Refusals.{details, refuses, fault_at, reason, refusal_text, fault_text};

use std::error::Error;
use std::fmt;

/// The software layer that refuses.
#[derive(Clone, Copy, Debug, PartialEq, Eq)]
pub enum Layer {
    Script,
    Port,
    Chip,
}

/// Why something is refused. The list is closed, and its order is the order of checking.
#[derive(Clone, Copy, Debug, PartialEq, Eq)]
pub enum Refusal {
    /// 1: the opening of a script is short or holds a value that is not listed, the script is too
    /// long, or a store is not 1 page to 16 MiB of whole pages.
    BadSetup,
    /// 2: the clock is 0 or above 133,000 kHz.
    ClockOutOfRange,
    /// 3: tCEM is less than 35 + 2 LC clocks at this clock.
    ClockTooSlow,
    /// 4: no command has this letter.
    UnknownCommand,
    /// 5: operands, data or mask pass the end of the script.
    CommandCutShort,
    /// 6: the strobe (DQS) was lost, and there was no reset since.
    StrobeStillLost,
    /// 7: a length is 0 or above 4,096.
    BadLength,
    /// 8: a fill's line is not 16, 32 or 64, or its start is odd.
    BadFill,
    /// 9: no such latency type, coverage or register.
    BadSetting,
    /// 10: a range ends past the size, or a fill starts at or past it.
    PastSize,
    /// 11: the size of a mask is wrong, or a bit is set past the length.
    BadMask,
    /// 12: a byte of the range or line is not refreshed.
    NotRefreshed,
    /// 13: the phase of the chip does not take this.
    WrongPhase,
    /// 14: a gap or a reset pulse is too short.
    TooSoon,
    /// 15: a memory frame starts at an odd address, or at or past the size.
    BadStart,
    /// 16: a memory frame of no bytes, a write of an odd number of bytes, or a write whose mask has
    /// the wrong size.
    BadCount,
    /// 17: CE# would be low for longer than tCEM, a memory read counted with 2 LC.
    TooLong,
    /// 18: the register cannot be read or written, or the value is reserved.
    BadRegister,
    /// 19: no strobe came; this many bytes, from whole earlier frames, are good.
    NoStrobe(u32),
    /// 20: a window hides all pages or more.
    WindowTooLarge,
}

/// What a refusal says in numbers.
#[derive(Clone, Copy, Debug, PartialEq, Eq)]
pub struct Details {
    pub number: u8,
    pub layer: Layer,
    /// The bytes that are good, where the strobe was lost.
    pub good: Option<u32>,
}

/// A refusal with its place: a place in the script, else the start of the request or frame as
/// called, else 0. A place is an address, or counts the bytes of a slice.
#[derive(Clone, Copy, Debug, PartialEq, Eq)]
pub struct Fault<P = u32> {
    pub refusal: Refusal,
    pub place: P,
}

/// A refusal that gives back what was handed over.
#[derive(Drop)]
pub struct Returned<T> {
    pub fault: Fault,
    pub value: T,
}

/// A letter or a code that names nothing.
#[derive(Clone, Copy, Debug, PartialEq, Eq)]
pub struct Unknown<T>(pub T);

impl fmt::Display for Layer {
    ghost output = { λ layer. Some (layer_name layer) };

    fn fmt<W: fmt::Write>(&self, f: &mut fmt::Formatter<W>) -> fmt::Result {
        f.write_str(match self {
            Layer::Script => "script",
            Layer::Port => "port",
            Layer::Chip => "chip",
        })
    }
}

impl Layer {
    // Details with no good bytes.
    fn refuses(self, number: u8) -> Details
        ensures { result ≡ refuses self number }
    {
        Details {
            number,
            layer: self,
            good: None,
        }
    }
}

impl Refusal {
    /// The number, the layer and the good bytes of this refusal.
    pub fn details(self) -> Details
        ensures { result ≡ details self }
    {
        match self {
            Refusal::BadSetup => Layer::Script.refuses(1),
            Refusal::ClockOutOfRange => Layer::Chip.refuses(2),
            Refusal::ClockTooSlow => Layer::Chip.refuses(3),
            Refusal::UnknownCommand => Layer::Script.refuses(4),
            Refusal::CommandCutShort => Layer::Script.refuses(5),
            Refusal::StrobeStillLost => Layer::Port.refuses(6),
            Refusal::BadLength => Layer::Port.refuses(7),
            Refusal::BadFill => Layer::Port.refuses(8),
            Refusal::BadSetting => Layer::Port.refuses(9),
            Refusal::PastSize => Layer::Port.refuses(10),
            Refusal::BadMask => Layer::Port.refuses(11),
            Refusal::NotRefreshed => Layer::Port.refuses(12),
            Refusal::WrongPhase => Layer::Chip.refuses(13),
            Refusal::TooSoon => Layer::Chip.refuses(14),
            Refusal::BadStart => Layer::Chip.refuses(15),
            Refusal::BadCount => Layer::Chip.refuses(16),
            Refusal::TooLong => Layer::Chip.refuses(17),
            Refusal::BadRegister => Layer::Chip.refuses(18),
            Refusal::NoStrobe(good) => Details {
                number: 19,
                layer: Layer::Chip,
                good: Some(good),
            },
            Refusal::WindowTooLarge => Layer::Chip.refuses(20),
        }
    }

    // Why, in words.
    fn reason(self) -> &'static str
        ensures { result.now ≡ reason self }
    {
        match self {
            Refusal::BadSetup => {
                "the opening is short or holds a value not listed, or the size of the input or \
                 the store is wrong"
            }
            Refusal::ClockOutOfRange => "the clock is 0 or above 133000 kHz",
            Refusal::ClockTooSlow => "tCEM is less than 35 + 2 LC clocks",
            Refusal::UnknownCommand => "no command has this letter",
            Refusal::CommandCutShort => "operands, data or mask pass the end of the script",
            Refusal::StrobeStillLost => "the strobe was lost, and there was no reset since",
            Refusal::BadLength => "the length is 0 or above 4096",
            Refusal::BadFill => "the line is not 16, 32 or 64, or its start is odd",
            Refusal::BadSetting => "no such latency type, coverage or register",
            Refusal::PastSize => "the range ends past the size, or the fill starts at or past it",
            Refusal::BadMask => "the size of the mask is wrong, or a bit is set past the length",
            Refusal::NotRefreshed => "a byte of the range or line is not refreshed",
            Refusal::WrongPhase => "the phase of the chip does not take this",
            Refusal::TooSoon => "the gap or the reset pulse is too short",
            Refusal::BadStart => "the start is odd, or at or past the size",
            Refusal::BadCount => {
                "there are no bytes, or in a write an odd number of bytes or a mask of \
                 the wrong size"
            }
            Refusal::TooLong => "CE# would be low for longer than tCEM",
            Refusal::BadRegister => {
                "the register cannot be read or written, or the value is reserved"
            }
            Refusal::NoStrobe(_) => "no strobe came",
            Refusal::WindowTooLarge => "the window hides all pages or more",
        }
    }

    /// This refusal at a place.
    pub fn at<P>(self, place: P) -> Fault<P>
        ensures { result ≡ fault_at self place }
    {
        Fault {
            refusal: self,
            place,
        }
    }
}

/// One line in words: the number, the layer and the reason.
impl fmt::Display for Refusal {
    ghost output = { λ refusal. Some (refusal_text refusal) };

    fn fmt<W: fmt::Write>(&self, f: &mut fmt::Formatter<W>) -> fmt::Result {
        let Details {
            number,
            layer,
            good,
        } = self.details();
        let reason = self.reason();
        match good {
            None => write!(f, "refusal {number} of the {layer}: {reason}"),
            Some(k) => write!(
                f,
                "refusal {number} of the {layer}: {reason}, {k} bytes are good"
            ),
        }
    }
}

impl Error for Refusal {}

/// One line in words: the number, the layer, the place and the reason.
impl<P: fmt::Display> fmt::Display for Fault<P> {
    ghost output = { λ fault. option_map (fault_text fault.refusal) (P.output fault.place) };

    fn fmt<W: fmt::Write>(&self, f: &mut fmt::Formatter<W>) -> fmt::Result {
        let Details {
            number,
            layer,
            good,
        } = self.refusal.details();
        let reason = self.refusal.reason();
        let place = &self.place;
        match good {
            None => write!(f, "refusal {number} of the {layer} at {place}: {reason}"),
            Some(k) => write!(
                f,
                "refusal {number} of the {layer} at {place}: {reason}, {k} bytes are good"
            ),
        }
    }
}

impl<P: fmt::Debug + fmt::Display + Drop> Error for Fault<P> {}
