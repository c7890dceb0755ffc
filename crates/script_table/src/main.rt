//! Scripts at the edges of their format, and what is read of each: one script cut off behind every
//! byte, every letter, the shortest and the longest lengths, and the longest input.
#![tactic(auto)]

mod show;

use show::{counts, listing};
use std::alloc::Global;
use std::io;
use std::io::{BufWriter, Write};

// An opening without a key: chip A, 2 pages, 133,000 kHz, range N.
const PLAIN: [u8; 15] = *b"A\x00\x02\x00\x02\x07\x88N\x00\x00\x00\x02\x00\x00P";

// An opening with its key, and each command; the write has nine bytes, and so two of mask.
const WHOLE: [u8; 72] = *b"S\x00\x10\x00\x01\xF4\x00X\x80\x00\x00\x01\x12\x34K0123456789ABCDEF\
R\x00\x00\x03\x00\x03W\xFF\xFF\xFE\x00\x09RWFLPQZRW\x00\x01F\x00\x08\x00\x40L\x01P\x07Q\x08Z\
R\xFF\xFF\xFF\xFF\xFF";

// Every front of one script.
fn fronts<W: Write>(heap: Global, out: &mut W) -> io::Result<()> {
    for count in 0..=WHOLE.len() {
        listing(heap, out, &WHOLE[..count])?;
    }
    Ok(())
}

// The opening without a key, and one byte.
fn with_letter(letter: u8) -> [u8; 16] {
    let mut script = [letter; 16];
    script[..15].copy_from_slice(&PLAIN);
    script
}

// Every byte in the place of a letter, with nothing behind it.
fn letters<W: Write>(heap: Global, out: &mut W) -> io::Result<()> {
    for letter in 0..=255 {
        let script = with_letter(letter);
        listing(heap, out, &script)?;
    }
    Ok(())
}

// A write of so many zeros, its mask whole or without its last byte.
fn write<W: Write>(heap: Global, out: &mut W, length: u16, cut: usize) -> io::Result<()> {
    let count = usize::from(length);
    let all = 6 + count + mask::size(count);
    let mut commands = vec![in heap; 0; all]?;
    commands[0] = b'W';
    commands[4..6].copy_from_slice(&length.to_be_bytes());
    counts(heap, out, &commands[..all.saturating_sub(cut)])
}

fn lengths<W: Write>(heap: Global, out: &mut W) -> io::Result<()> {
    counts(heap, out, b"R\x00\x00\x00\x00\x00")?;
    counts(heap, out, b"R\x00\x00\x00\xFF\xFF")?;
    for length in [0, 1, 7, 8, 9, 4_095, 4_096, 4_097, 65_528, 65_529, 65_535] {
        write(heap, out, length, 0)?;
        write(heap, out, length, 1)?;
    }
    Ok(())
}

// The longest input that is taken, full of resets, and one byte more.
fn longest<W: Write>(heap: Global, out: &mut W) -> io::Result<()> {
    let mut script = vec![in heap; b'Z'; 32_769]?;
    script[..15].copy_from_slice(&PLAIN);
    counts(heap, out, &script[15..32_768])?;
    listing(heap, out, &script)
}

fn main(rt: HostRuntime) -> io::Result<()> {
    let heap = rt.alloc();
    let mut out = BufWriter::new(heap, rt.stdout())?;
    fronts(heap, &mut out)?;
    letters(heap, &mut out)?;
    lengths(heap, &mut out)?;
    longest(heap, &mut out)?;
    out.flush()
}
