//! The opening of a script: which chip, at which clock, under which layers.
use crate::reader::Reader;
use clock::{Clock, TemperatureRange};
use fault::{Fault, Refusal};
use frame::Make;

/// The most bytes that a script may have.
pub const LONGEST: usize = 32_768;

/// The layers over the chip, by their letters P and K.
#[derive(Clone, Copy, Debug, PartialEq, Eq)]
pub enum Stack {
    /// P: none.
    Plain,
    /// K: a scrambler with this key, over a window that hides the first page.
    Keyed([u8; 16]),
}

impl Stack {
    ghost use Rattle.std.specs.Prelude.{◌≡◌, ◌≤◌, length, Some, None, IfOk, OnOk, IfErr, OnErr};
    ghost use Rattle.script.specs.Openings.{stack_at_front};

    // The stack of a chip with so many pages.
    fn read(reader: &mut Reader<'_>, pages: u16) -> Result<Stack, Refusal>
        ensures ok { IfOk result (λ s. stack_at_front pages reader.old.rest.now ≡ Some s) }
        ensures names_nothing { OnErr result (stack_at_front pages reader.old.rest.now ≡ None) }
        ensures there { OnOk result (1 ≤ length reader.old.rest.now) }
        ensures refused { IfErr result (λ e. e ≡ Refusal.BadSetup) }
    {
        let [letter] = reader.bytes::<1>()?;
        match char::from(letter) {
            'P' => Ok(Stack::Plain),
            'K' if pages >= 2 => Ok(Stack::Keyed(reader.bytes()?)),
            _ => Err(Refusal::BadSetup),
        }
    }
}

/// What the opening of a script says.
#[derive(Clone, Copy, Debug, PartialEq, Eq)]
pub struct Opening {
    pub make: Make,
    /// The size of the chip in pages.
    pub pages: u16,
    pub clock: Clock,
    /// Which variable reads meet a refresh, one bit each, the lowest first.
    pub refresh_word: u32,
    /// After how many answered reads the strobe (DQS) goes; 0 for never.
    pub strobe_count: u16,
    pub stack: Stack,
}

impl Opening {
    ghost use Rattle.std.specs.Prelude.{◌≡◌, ◌↔◌, drop, Some, None, IsOk, IfOk, OnOk, IfErr};
    ghost use Rattle.script.specs.Openings.{opening_refusal, fields_at_front, fields_of, opening_length, OpeningComesBack};

    // The opening and its key. Whatever is wrong in its form is refused before its clock is.
    fn read(input: &[u8]) -> Result<Opening, Refusal>
        ensures taken { OnOk result (opening_refusal input.now ≡ None) }
        ensures ok { IfOk result (λ o. fields_of o ≡ fields_at_front input.now) }
        ensures refused { IfErr result (λ e. opening_refusal input.now ≡ Some e) }
    {
        if input.len() > LONGEST {
            return Err(Refusal::BadSetup);
        }
        let mut reader = Reader::new(input);
        let make = reader.letter()?;
        let pages = reader.u16()?;
        if pages == 0 || pages > 16 {
            return Err(Refusal::BadSetup);
        }
        let khz = reader.u32()?;
        let range = reader.letter()?;
        let refresh_word = reader.u32()?;
        let strobe_count = reader.u16()?;
        let stack = Stack::read(&mut reader, pages)?;
        let clock = Clock::new(khz, range)?;
        Ok(Opening {
            make,
            pages,
            clock,
            refresh_word,
            strobe_count,
            stack,
        })
    }

    /// Reads the opening of a script. Refused by 1, then 2, then 3, each at place 0.
    pub fn parse(input: &[u8]) -> Result<Opening, Fault>
        ensures taken { IsOk result ↔ (opening_refusal input.now ≡ None) }
        ensures ok { IfOk result (λ o. fields_of o ≡ fields_at_front input.now) }
        ensures refused { IfErr result (λ f. opening_refusal input.now ≡ Some f.refusal) }
        ensures place { IfErr result (λ f. f.place ≡ 0) }
        ensures comes_back { OpeningComesBack input.now }
    {
        Opening::read(input).map_err(|refusal| refusal.at(0))
    }

    /// How many bytes of the script the opening takes, with its key: the commands follow.
    pub fn length(&self) -> usize
        ensures { result ≡ opening_length self.now.stack }
    {
        match self.stack {
            Stack::Plain => 15,
            Stack::Keyed(_) => 31,
        }
    }

    /// The commands of a script with this opening: what follows the opening and its key.
    pub fn commands<'a>(&self, script: &'a [u8]) -> &'a [u8]
        ensures { result.now ≡ drop (opening_length self.now.stack) script.now }
    {
        script.get(self.length()..).unwrap_or_default()
    }
}
