//! A scrambler.

ghost use Rattle.std.specs.Prelude.{◌≡◌};
ghost use Rattle.chip.specs.Taken.{address};

use chip::{Chip, Config, Exact, Frame, Reply, SCRATCH, State};
use fault::Fault;
use frame::Burst;
use register::{Coverage, on_wire};

/// A chip whose bytes are those of the chip below, each combined by exclusive or with the key byte of
/// its own address modulo 16.
#[derive(Drop)]
pub struct Scrambler<C> {
    pub(crate) chip: C,
    key: [u8; 16],
}

impl<C: Chip> Scrambler<C> {
    ghost use Rattle.scrambler.specs.Scramblers.{key_at, combined};

    /// A scrambler over this chip, with this key.
    pub fn new(chip: C, key: [u8; 16]) -> Scrambler<C>
        ensures chip { result.chip ≡ chip }
        ensures key { result.key ≡ key }
    {
        Scrambler { chip, key }
    }

    /// The chip below.
    pub fn into_chip(self) -> C
        ensures { result ≡ self.chip }
    {
        self.chip
    }

    // The key byte of an address.
    pub(crate) fn key_byte(&self, address: u32) -> u8
        ensures { result ≡ key_at self.now.key address }
    {
        self.key[(address % 16) as usize]
    }

    // Combines each byte of a burst, as it is on the wire, with the key byte of its own address.
    fn combine(&self, burst: Burst, start: u32, bytes: &mut [u8])
        ensures { bytes.new ≡ combined self.now.key
            (address (C.Chip.meaning self.now.chip).config (C.Chip.meaning self.now.chip).state
            burst start)
            bytes.old }
    {
        let make = self.chip.config().make;
        let burst = on_wire(burst, self.chip.state().mr8);
        for (i, byte) in bytes.iter_mut().enumerate() {
            *byte ^= self.key_byte(burst.address(make, start, i));
        }
    }
}

impl<C: Chip> Chip for Scrambler<C> {
    ghost use Rattle.scrambler.specs.Scramblers.{scrambler, Scrambled};
    ghost use Rattle.scrambler.specs.Laws.{lawful_scrambler, same_composes, same_config_above};

    ghost meaning = { λ s. scrambler s.key (C.Chip.meaning s.chip) };

    ghost gives = { λ s e t. Scrambled C.Chip.meaning C.Chip.gives s.key s.chip e t.key t.chip };

    ghost same_config = { λ s t. (t.key ≡ s.key) × C.Chip.same_config s.chip t.chip };

    ghost lawful = { λ s. lawful_scrambler _ _ (C.Chip.lawful s.chip) };

    ghost same_composes = { same_composes (λ s. s.key) (λ s. s.chip) _ C.Chip.same_composes };

    ghost means_the_same = { λ s t same.
        same_config_above _ _ _ _ (C.Chip.means_the_same s.chip t.chip same.1) };

    fn config(&self) -> Config {
        self.chip.config()
    }

    fn state(&self) -> State {
        self.chip.state()
    }

    fn refreshed(&self, coverage: Coverage, from: u32, count: u32) -> bool {
        self.chip.refreshed(coverage, from, count)
    }

    fn send(&mut self, gap: u32, frame: Frame<'_>, buffer: &mut [u8]) -> Result<Reply, Fault> {
        match frame {
            Frame::Read { burst, start } => {
                let reply = self.chip.send(gap, frame, buffer)?;
                self.combine(burst, start, buffer);
                Ok(reply)
            }
            Frame::Write {
                burst,
                start,
                data,
                mask,
            } if data.len() <= SCRATCH => {
                let mut scratch = [0; SCRATCH];
                let mixed = &mut scratch[..data.len()];
                mixed.copy_from_slice(data);
                self.combine(burst, start, mixed);
                let below = Frame::Write {
                    burst,
                    start,
                    data: mixed,
                    mask,
                };
                self.chip.send(gap, below, buffer)
            }
            // a longer write goes down as it is, and is refused there
            _ => self.chip.send(gap, frame, buffer),
        }
    }

    fn reset(&mut self, pulse: u32) -> Result<(), Fault> {
        self.chip.reset(pulse)
    }
}

impl<C: Exact> Exact for Scrambler<C> {
    ghost use Rattle.scrambler.specs.Laws.{scrambler_outcome};

    ghost shows_same = { λ s t. (s.key ≡ t.key) × C.Exact.shows_same s.chip t.chip };

    ghost one_outcome = { scrambler_outcome (λ s. s.key) (λ s. s.chip) _ _ _ C.Exact.one_outcome };
}
