// The words of a question.
use crate::names::named;
use clock::{Clock, Latency, TemperatureRange};
use fault::Refusal;
use frame::{Burst, Command, Make};
use register::{CacheLine, Coverage, LatencyType};
use std::alloc::Global;

// What a row asks for: its first word.
#[derive(Clone, Copy, Debug, PartialEq, Eq)]
pub enum Ask {
    Clock,
    Keeps,
    Opening,
    Opened,
    Place,
    Burst,
    Low,
    Mask,
    Meaning,
    Accepts,
    Access,
    Settings,
    Wire,
    Kept,
    Pieces,
    Frames,
    Rounded,
    Script,
    Report,
    Refusal,
}

// What a word stands for.
#[derive(Clone, Copy, Debug, PartialEq, Eq)]
pub enum Word {
    Ask(Ask),
    // a number in decimal, of 32 bits or of more
    Number(u32),
    Long(u64),
    // two hexadecimal digits and an h
    Byte(u8),
    TemperatureRange(TemperatureRange),
    Latency(Latency),
    Make(Make),
    Burst(Burst),
    Command(Command),
    Type(LatencyType),
    Coverage(Coverage),
    Line(CacheLine),
    Refusal(Refusal),
}

impl Word {
    // A number of any length.
    pub fn long(self) -> Option<u64> {
        match self {
            Word::Number(number) => Some(u64::from(number)),
            Word::Long(number) => Some(number),
            _ => None,
        }
    }

    // `FromStr` and `TryFrom` would each want an error, which every caller would turn into None.
    fn of(text: &str) -> Option<Word> {
        number_of(text).or_else(|| named(text))
    }
}

fn number_of(text: &str) -> Option<Word> {
    if let Ok(number) = text.parse() {
        return Some(Word::Number(number));
    }
    if let Ok(number) = text.parse() {
        return Some(Word::Long(number));
    }
    let byte = u8::from_str_radix(text.strip_suffix('h')?, 16).ok()?;
    Some(Word::Byte(byte))
}

pub fn words_of(heap: Global, text: &str) -> Option<Vec<Word>> {
    text.split_whitespace().map(Word::of).collect(heap).ok()?
}

// The clock of a range and a clock in kHz that are not refused.
pub fn clock_of(words: &[Word]) -> Option<Clock> {
    match words {
        [Word::TemperatureRange(range), Word::Number(khz)] => Clock::new(*khz, *range).ok(),
        _ => None,
    }
}

// The bytes that digits write in hexadecimal, and behind them as many zeros as the number behind a
// plus says.
pub fn bytes_of(heap: Global, text: &str) -> Option<Vec<u8>> {
    let (digits, zeros) = text.split_once('+').unwrap_or((text, "0"));
    let mut bytes = hex::decode(heap, digits).ok()?;
    let length = bytes.len().checked_add(zeros.parse().ok()?)?;
    bytes.resize(length, 0).ok()?;
    Some(bytes)
}
