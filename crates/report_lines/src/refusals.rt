//! Each refusal, at the first place, at the last one of the longest script, and at the largest number.
use fault::Refusal;
use report::Line;
use std::io;
use std::io::Write;

const REFUSALS: [Refusal; 23] = [
    Refusal::BadSetup,
    Refusal::ClockOutOfRange,
    Refusal::ClockTooSlow,
    Refusal::UnknownCommand,
    Refusal::CommandCutShort,
    Refusal::StrobeStillLost,
    Refusal::BadLength,
    Refusal::BadFill,
    Refusal::BadSetting,
    Refusal::PastSize,
    Refusal::BadMask,
    Refusal::NotRefreshed,
    Refusal::WrongPhase,
    Refusal::TooSoon,
    Refusal::BadStart,
    Refusal::BadCount,
    Refusal::TooLong,
    Refusal::BadRegister,
    Refusal::NoStrobe(0),
    Refusal::NoStrobe(1),
    Refusal::NoStrobe(4_096),
    Refusal::NoStrobe(u32::MAX),
    Refusal::WindowTooLarge,
];

pub fn lines<W: Write>(out: &mut W) -> io::Result<()> {
    for refusal in REFUSALS {
        for place in [0, 32_767, usize::MAX] {
            writeln!(out, "{}", Line::Refused(refusal.at(place)))?;
        }
    }
    Ok(())
}
