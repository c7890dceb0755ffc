//! The lines that the page on reports quotes.
use fault::Refusal;
use port::Traffic;
use report::Line;
use std::io;
use std::io::Write;

fn traffic(frames: u64, clocks: u64) -> Traffic {
    Traffic { frames, clocks }
}

pub fn lines<W: Write>(out: &mut W) -> io::Result<()> {
    let lines = [
        Line::Read {
            address: 3,
            data: &[0x0a, 0x00, 0x0c],
            traffic: traffic(1, 10),
        },
        Line::Write {
            address: 3,
            length: 3,
            mask: &[0b010],
            traffic: traffic(1, 10),
        },
        Line::Fill {
            address: 6,
            data: &[0, 0, 0, 0, 0, 0, 0, 0, 0, 0, 0, 0, 0, 0x0a, 0x00, 0x0c],
            traffic: traffic(2, 26),
        },
        Line::LatencyType {
            value: 1,
            traffic: traffic(1, 5),
        },
        Line::Coverage {
            code: 0,
            traffic: traffic(1, 5),
        },
        Line::Register {
            number: 0,
            byte: 9,
            traffic: traffic(1, 9),
        },
        Line::Reset {
            traffic: traffic(2, 10),
        },
        Line::Refused(Refusal::PastSize.at(21)),
        Line::Refused(Refusal::NoStrobe(1_024).at(30)),
    ];
    for line in lines {
        writeln!(out, "{line}")?;
    }
    Ok(())
}
