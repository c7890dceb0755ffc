//! The commands, and the five bytes that open a frame.
ghost use Rattle.std.specs.Prelude.{◌≡◌, Some, IfSome, IfNone};
ghost use Rattle.fault.specs.Names.{Named};
ghost use Rattle.frame.specs.OpeningBytes.{code, last_address, opening_bytes, from_opening_bytes, GivesBack, OpensNothing};

use fault::Unknown;

/// What a frame asks of the chip, by the first byte of the frame.
#[derive(Clone, Copy, Debug, PartialEq, Eq)]
pub enum Command {
    Read = 0x00,
    LinearRead = 0x20,
    Write = 0x80,
    LinearWrite = 0xa0,
    RegisterRead = 0x40,
    RegisterWrite = 0xc0,
    GlobalReset = 0xff,
}

impl TryFrom<u8> for Command {
    type Error = Unknown<u8>;

    ghost try_from_gives = { Named code };

    fn try_from(code: u8) -> Result<Command, Unknown<u8>> {
        match code {
            0x00 => Ok(Command::Read),
            0x20 => Ok(Command::LinearRead),
            0x80 => Ok(Command::Write),
            0xa0 => Ok(Command::LinearWrite),
            0x40 => Ok(Command::RegisterRead),
            0xc0 => Ok(Command::RegisterWrite),
            0xff => Ok(Command::GlobalReset),
            _ => Err(Unknown(code)),
        }
    }
}

impl Command {
    /// The first byte of a frame.
    pub fn code(self) -> u8
        ensures { result ≡ code self }
    {
        self as u8
    }

    // The largest address that a frame of this command carries.
    fn last_address(self) -> u32
        ensures { result ≡ last_address self }
    {
        match self {
            Command::Read | Command::LinearRead | Command::Write | Command::LinearWrite =>
                0xff_ffff,
            Command::RegisterRead | Command::RegisterWrite => 0xff,
            Command::GlobalReset => 0,
        }
    }

    /// The five bytes that open a frame: the command, a 0, and the address, high byte first.
    /// `None` where the address is too large for the command.
    #[tactic(auto, using(crate::proofs::Reopens::gives_back))]
    pub fn opening_bytes(self, address: u32) -> Option<[u8; 5]>
        ensures value { result ≡ opening_bytes self address }
        ensures gives_back { GivesBack }
    {
        if address > self.last_address() {
            return None;
        }
        let [a3, a2, a1, a0] = address.to_be_bytes();
        Some([self.code(), a3, a2, a1, a0])
    }

    /// The command and the address of the frame that five bytes open. `None` where they open none.
    #[tactic(auto, using(crate::proofs::Reopens::command_at, crate::proofs::Reopens::no_command))]
    pub fn from_opening_bytes(bytes: [u8; 5]) -> Option<(Command, u32)>
        ensures value { result ≡ from_opening_bytes bytes }
        ensures opens { IfSome result (λ (c, a). opening_bytes c a ≡ Some bytes) }
        ensures nothing { IfNone result (OpensNothing bytes) }
    {
        let [first, a3, a2, a1, a0] = &bytes;
        let command = Command::try_from(*first).ok()?;
        let address = u32::from_be_bytes([*a3, *a2, *a1, *a0]);
        if address > command.last_address() {
            return None;
        }
        Some((command, address))
    }
}
