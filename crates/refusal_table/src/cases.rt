// The cases of the table.
use crate::amounts::Amounts;
use std::fmt;

// What is tried. Memory frames are linear.
#[derive(Clone, Copy)]
pub enum Try {
    Read { start: u32, bytes: u32 },
    // a write of so many bytes, with a mask of so many bytes
    Write { start: u32, bytes: u32, masks: u32 },
    RegisterRead(u8),
    RegisterWrite(u8, u8),
    Wake,
    Pulse,
}

// Something tried after a gap of so many clocks; of a pulse, its length.
#[derive(Clone, Copy)]
pub struct Case {
    pub gap: u32,
    pub what: Try,
}

impl Case {
    // The case that words say, if they say one.
    pub fn read(words: &[&str], amounts: &Amounts) -> Option<Case> {
        match words {
            ["pulse", "of", length] => Some(Case {
                gap: amounts.read(length)?,
                what: Try::Pulse,
            }),
            ["after", gap, what @ ..] => Some(Case {
                gap: amounts.read(gap)?,
                what: Try::read(what, amounts)?,
            }),
            _ => None,
        }
    }
}

// The number of a register, behind MR.
fn register(text: &str) -> Option<u8> {
    text.strip_prefix("MR")?.parse().ok()
}

impl Try {
    fn read(words: &[&str], amounts: &Amounts) -> Option<Try> {
        match words {
            ["wake"] => Some(Try::Wake),
            ["read", number] => Some(Try::RegisterRead(register(number)?)),
            ["write", number, "with", value] => Some(Try::RegisterWrite(
                register(number)?,
                amounts.byte(value)?,
            )),
            ["read", bytes, "at", start] => Some(Try::Read {
                start: amounts.read(start)?,
                bytes: amounts.read(bytes)?,
            }),
            ["write", bytes, "at", start] => {
                let bytes = amounts.read(bytes)?;
                Some(Try::Write {
                    start: amounts.read(start)?,
                    bytes,
                    masks: bytes.div_ceil(8),
                })
            }
            ["write", bytes, "at", start, "mask", "of", masks] => Some(Try::Write {
                start: amounts.read(start)?,
                bytes: amounts.read(bytes)?,
                masks: amounts.read(masks)?,
            }),
            _ => None,
        }
    }
}

impl fmt::Display for Case {
    fn fmt<W: fmt::Write>(&self, f: &mut fmt::Formatter<W>) -> fmt::Result {
        let Case { gap, what } = *self;
        match what {
            Try::Read { start, bytes } => write!(f, "after {gap}, read {bytes} at {start}"),
            Try::Write {
                start,
                bytes,
                masks,
            } => write!(f, "after {gap}, write {bytes} at {start}, mask of {masks}"),
            Try::RegisterRead(number) => write!(f, "after {gap}, read MR{number}"),
            Try::RegisterWrite(number, value) => {
                write!(f, "after {gap}, write MR{number} with {value:02X}")
            }
            Try::Wake => write!(f, "after {gap}, wake"),
            Try::Pulse => write!(f, "pulse of {gap}"),
        }
    }
}
