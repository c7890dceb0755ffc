// The names that the protocol's values have in a row.
use crate::words::{Ask, Word};
use clock::{Latency, TemperatureRange};
use fault::Refusal;
use frame::{Block, Burst, Command, Make};
use register::{CacheLine, Coverage, LatencyType};

static NAMES: [(&str, Word); 76] = [
    ("clock", Word::Ask(Ask::Clock)),
    ("keeps", Word::Ask(Ask::Keeps)),
    ("opening", Word::Ask(Ask::Opening)),
    ("opened", Word::Ask(Ask::Opened)),
    ("place", Word::Ask(Ask::Place)),
    ("burst", Word::Ask(Ask::Burst)),
    ("low", Word::Ask(Ask::Low)),
    ("mask", Word::Ask(Ask::Mask)),
    ("meaning", Word::Ask(Ask::Meaning)),
    ("accepts", Word::Ask(Ask::Accepts)),
    ("access", Word::Ask(Ask::Access)),
    ("settings", Word::Ask(Ask::Settings)),
    ("wire", Word::Ask(Ask::Wire)),
    ("kept", Word::Ask(Ask::Kept)),
    ("pieces", Word::Ask(Ask::Pieces)),
    ("frames", Word::Ask(Ask::Frames)),
    ("rounded", Word::Ask(Ask::Rounded)),
    ("script", Word::Ask(Ask::Script)),
    ("report", Word::Ask(Ask::Report)),
    ("refusal", Word::Ask(Ask::Refusal)),
    ("N", Word::TemperatureRange(TemperatureRange::Normal)),
    ("X", Word::TemperatureRange(TemperatureRange::Extended)),
    ("three", Word::Latency(Latency::Three)),
    ("four", Word::Latency(Latency::Four)),
    ("five", Word::Latency(Latency::Five)),
    ("A", Word::Make(Make::A)),
    ("S", Word::Make(Make::S)),
    ("linear", Word::Burst(Burst::Linear)),
    ("wrapped-16", Word::Burst(Burst::Wrapped(Block::Bytes16))),
    ("wrapped-32", Word::Burst(Burst::Wrapped(Block::Bytes32))),
    ("wrapped-64", Word::Burst(Burst::Wrapped(Block::Bytes64))),
    ("wrapped-page", Word::Burst(Burst::Wrapped(Block::Page))),
    ("hybrid-16", Word::Burst(Burst::Hybrid(Block::Bytes16))),
    ("hybrid-32", Word::Burst(Burst::Hybrid(Block::Bytes32))),
    ("hybrid-64", Word::Burst(Burst::Hybrid(Block::Bytes64))),
    ("hybrid-page", Word::Burst(Burst::Hybrid(Block::Page))),
    ("read", Word::Command(Command::Read)),
    ("linear-read", Word::Command(Command::LinearRead)),
    ("write", Word::Command(Command::Write)),
    ("linear-write", Word::Command(Command::LinearWrite)),
    ("register-read", Word::Command(Command::RegisterRead)),
    ("register-write", Word::Command(Command::RegisterWrite)),
    ("global-reset", Word::Command(Command::GlobalReset)),
    ("variable", Word::Type(LatencyType::Variable)),
    ("fixed", Word::Type(LatencyType::Fixed)),
    ("all", Word::Coverage(Coverage::All)),
    ("bottom-half", Word::Coverage(Coverage::BottomHalf)),
    ("bottom-quarter", Word::Coverage(Coverage::BottomQuarter)),
    ("bottom-eighth", Word::Coverage(Coverage::BottomEighth)),
    ("nothing", Word::Coverage(Coverage::Nothing)),
    ("top-half", Word::Coverage(Coverage::TopHalf)),
    ("top-quarter", Word::Coverage(Coverage::TopQuarter)),
    ("top-eighth", Word::Coverage(Coverage::TopEighth)),
    ("line-16", Word::Line(CacheLine::Bytes16)),
    ("line-32", Word::Line(CacheLine::Bytes32)),
    ("line-64", Word::Line(CacheLine::Bytes64)),
    ("bad-setup", Word::Refusal(Refusal::BadSetup)),
    (
        "clock-out-of-range",
        Word::Refusal(Refusal::ClockOutOfRange),
    ),
    ("clock-too-slow", Word::Refusal(Refusal::ClockTooSlow)),
    ("unknown-command", Word::Refusal(Refusal::UnknownCommand)),
    ("command-cut-short", Word::Refusal(Refusal::CommandCutShort)),
    ("strobe-still-lost", Word::Refusal(Refusal::StrobeStillLost)),
    ("bad-length", Word::Refusal(Refusal::BadLength)),
    ("bad-fill", Word::Refusal(Refusal::BadFill)),
    ("bad-setting", Word::Refusal(Refusal::BadSetting)),
    ("past-size", Word::Refusal(Refusal::PastSize)),
    ("bad-mask", Word::Refusal(Refusal::BadMask)),
    ("not-refreshed", Word::Refusal(Refusal::NotRefreshed)),
    ("wrong-phase", Word::Refusal(Refusal::WrongPhase)),
    ("too-soon", Word::Refusal(Refusal::TooSoon)),
    ("bad-start", Word::Refusal(Refusal::BadStart)),
    ("bad-count", Word::Refusal(Refusal::BadCount)),
    ("too-long", Word::Refusal(Refusal::TooLong)),
    ("bad-register", Word::Refusal(Refusal::BadRegister)),
    ("no-strobe", Word::Refusal(Refusal::NoStrobe(0))),
    ("window-too-large", Word::Refusal(Refusal::WindowTooLarge)),
];

// What has this name.
pub fn named(text: &str) -> Option<Word> {
    let (_, word) = NAMES.iter().find(|(name, _)| *name == text)?;
    Some(*word)
}

// The name of what has one.
pub fn name_of(word: Word) -> Option<&'static str> {
    let (name, _) = NAMES.iter().find(|(_, named)| *named == word)?;
    Some(*name)
}
