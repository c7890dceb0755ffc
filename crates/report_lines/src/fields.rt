//! Lines at the ends of each field. An address above six digits shows its low three bytes.
use port::Traffic;
use report::Line;
use std::io::Write;
use std::{array, io};

const ADDRESSES: [u32; 8] = [
    0,
    3,
    0xabcd,
    0x0a_bcde,
    0xff_ffff,
    0x100_0000,
    0x1234_5678,
    u32::MAX,
];

const ONE: Traffic = Traffic {
    frames: 1,
    clocks: 1,
};

const DATA: [u8; 16] = [
    0x00, 0x01, 0x09, 0x0a, 0x0f, 0x10, 0x7f, 0x80, 0x90, 0x99, 0x9a, 0xa0, 0xab, 0xef, 0xf0, 0xff,
];

// Counts up from 0, and begins again after 255.
fn count_up<const N: usize>() -> [u8; N] {
    array::from_fn(|i| (i % 256) as u8)
}

fn read<W: Write>(out: &mut W, address: u32, data: &[u8]) -> io::Result<()> {
    let traffic = ONE;
    let line = Line::Read {
        address,
        data,
        traffic,
    };
    writeln!(out, "{line}")
}

pub fn reads<W: Write>(out: &mut W) -> io::Result<()> {
    for address in ADDRESSES {
        read(out, address, &DATA[..3])?;
    }
    for byte in DATA {
        read(out, 0, &[byte])?;
    }
    let all = count_up::<4_096>();
    for data in [
        &all[..0],
        &all[..1],
        &all[..3],
        &all[..16],
        &all[..256],
        &all[..4_095],
        &all[..],
    ] {
        read(out, 0, data)?;
    }
    Ok(())
}

fn write<W: Write>(out: &mut W, address: u32, length: u16, mask: &[u8]) -> io::Result<()> {
    let traffic = ONE;
    let line = Line::Write {
        address,
        length,
        mask,
        traffic,
    };
    writeln!(out, "{line}")
}

// Masks with no bit set, with all set, with some, and with more than the length.
pub fn writes<W: Write>(out: &mut W) -> io::Result<()> {
    for address in ADDRESSES {
        write(out, address, 1, &[0])?;
    }
    for length in [0, 1, 2, 3, 4, 5, 6, 7, 8] {
        for mask in [0x00, 0x01, 0x11, 0xff] {
            write(out, 0, length, &[mask])?;
        }
    }
    write(out, 0, 0, &[])?;
    write(out, 0, u16::MAX, &[])?;
    write(out, 0, 16, &[0x55, 0xaa])?;
    write(out, 0, 16, &[0xff, 0x7f])?;
    write(out, 0, 16, &[0xff, 0xff])?;
    for mask in [0x00, 0x80, 0xff] {
        write(out, 0, 4_096, &[mask; 512])?;
    }
    Ok(())
}

pub fn fills<W: Write>(out: &mut W) -> io::Result<()> {
    let line = count_up::<64>();
    for address in ADDRESSES {
        for data in [&line[..16], &line[..32], &line[..]] {
            let traffic = ONE;
            let line = Line::Fill {
                address,
                data,
                traffic,
            };
            writeln!(out, "{line}")?;
        }
    }
    Ok(())
}

pub fn settings<W: Write>(out: &mut W) -> io::Result<()> {
    let traffic = ONE;
    for value in [0, 1, u8::MAX] {
        writeln!(out, "{}", Line::LatencyType { value, traffic })?;
    }
    for code in [0, 1, 2, 3, 4, 5, 6, 7, u8::MAX] {
        writeln!(out, "{}", Line::Coverage { code, traffic })?;
    }
    Ok(())
}

pub fn registers<W: Write>(out: &mut W) -> io::Result<()> {
    let traffic = ONE;
    for number in [0, 1, 2, 3, 4, 8, u8::MAX] {
        for byte in [0x00, 0x09, 0x0a, 0x90, 0xff] {
            writeln!(
                out,
                "{}",
                Line::Register {
                    number,
                    byte,
                    traffic
                }
            )?;
        }
    }
    Ok(())
}

pub fn costs<W: Write>(out: &mut W) -> io::Result<()> {
    for frames in [0, 1, 10, u64::MAX] {
        for clocks in [0, 1, 10, u64::MAX] {
            let traffic = Traffic { frames, clocks };
            writeln!(out, "{}", Line::Reset { traffic })?;
            writeln!(out, "{}", Line::LatencyType { value: 1, traffic })?;
        }
    }
    Ok(())
}
