//! The two makes of chip.
ghost use Rattle.std.specs.Prelude.{◌≡◌, Some, [], ◌∷◌};
ghost use Rattle.fault.specs.Names.{Named};
ghost use Rattle.frame.specs.Letters.{letter};
ghost use Rattle.frame.specs.Pages.{page, row_and_column};

use fault::Unknown;
use std::fmt;

/// The make of a chip.
#[derive(Clone, Copy, Debug, PartialEq, Eq)]
pub enum Make {
    /// The APS12808L-3OBM.
    A,
    /// The SCB18X128800AF, in its 8-bit mode.
    S,
}

impl Make {
    /// The page length in bytes.
    pub fn page(self) -> u32
        ensures { result ≡ page self }
    {
        match self {
            Make::A => 1_024,
            Make::S => 2_048,
        }
    }

    /// The row and the column of an address.
    pub fn row_and_column(self, address: u32) -> (u32, u32)
        ensures { result ≡ row_and_column self address }
    {
        let page = self.page();
        (address / page, address % page)
    }
}

impl TryFrom<char> for Make {
    type Error = Unknown<char>;

    ghost try_from_gives = { Named letter };

    fn try_from(letter: char) -> Result<Make, Unknown<char>> {
        match letter {
            'A' => Ok(Make::A),
            'S' => Ok(Make::S),
            _ => Err(Unknown(letter)),
        }
    }
}

impl fmt::Display for Make {
    ghost output = { λ m. Some (letter m ∷ []) };

    fn fmt<W: fmt::Write>(&self, f: &mut fmt::Formatter<W>) -> fmt::Result {
        f.write_str(match self {
            Make::A => "A",
            Make::S => "S",
        })
    }
}
