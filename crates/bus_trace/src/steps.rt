// The steps of a trace.
use crate::amounts::Amounts;
use chip::Frame;
use frame::{Block, Burst};
use std::fmt;

#[derive(Clone, Copy)]
pub enum Step<'a> {
    // a frame after a gap of so many clocks, or with none after the least gap; a read is of so many
    // bytes
    Send {
        gap: Option<u32>,
        frame: Frame<'a>,
        bytes: u32,
    },
    // a reset by a pulse of so many clocks
    Pulse(u32),
    // how many pages there are
    Pages,
    // which pages the bottom half of the chip refreshes
    Refreshed,
    // the counts of frames and of their low clocks
    Counts,
}

// The number of a register, behind MR.
fn register(text: &str) -> Option<u8> {
    text.strip_prefix("MR")?.parse().ok()
}

fn block(text: &str) -> Option<Block> {
    match text {
        "16" => Some(Block::Bytes16),
        "32" => Some(Block::Bytes32),
        "64" => Some(Block::Bytes64),
        "page" => Some(Block::Page),
        _ => None,
    }
}

fn burst(text: &str) -> Option<Burst> {
    match text.split_once('-') {
        Some(("wrapped", length)) => Some(Burst::Wrapped(block(length)?)),
        Some(("hybrid", length)) => Some(Burst::Hybrid(block(length)?)),
        None if text == "linear" => Some(Burst::Linear),
        _ => None,
    }
}

// A frame and the bytes that are read. The mask is that of the words, decoded.
fn frame<'a>(words: &[&'a str], mask: &'a [u8], amounts: &Amounts) -> Option<(Frame<'a>, u32)> {
    let frame = match words {
        ["wake"] => Frame::GlobalReset,
        ["read", number] => Frame::RegisterRead {
            number: register(number)?,
        },
        ["write", number, "with", value] => Frame::RegisterWrite {
            number: register(number)?,
            value: amounts.byte(value)?,
        },
        ["read", bytes, "at", start, order] => {
            let frame = Frame::Read {
                burst: burst(order)?,
                start: amounts.read(start)?,
            };
            return Some((frame, amounts.read(bytes)?));
        }
        ["write", data, "mask", _, "at", start, order] => Frame::Write {
            burst: burst(order)?,
            start: amounts.read(start)?,
            data: data.as_bytes(),
            mask,
        },
        _ => return None,
    };
    Some((frame, 0))
}

impl<'a> Step<'a> {
    // The step that words say, if they say one. The mask is that of the words, decoded.
    pub fn read(words: &[&'a str], mask: &'a [u8], amounts: &Amounts) -> Option<Step<'a>> {
        match words {
            ["pages"] => Some(Step::Pages),
            ["refreshed", "by", "the", "bottom", "half"] => Some(Step::Refreshed),
            ["counts"] => Some(Step::Counts),
            ["pulse", "of", length] => Some(Step::Pulse(amounts.read(length)?)),
            ["after", gap, rest @ ..] => {
                let (frame, bytes) = frame(rest, mask, amounts)?;
                Some(Step::Send {
                    gap: Some(amounts.read(gap)?),
                    frame,
                    bytes,
                })
            }
            ["soonest", rest @ ..] => {
                let (frame, bytes) = frame(rest, mask, amounts)?;
                Some(Step::Send {
                    gap: None,
                    frame,
                    bytes,
                })
            }
            _ => None,
        }
    }
}
