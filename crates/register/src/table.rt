//! Which registers there are, what they hold after wake or reset, and which values they take.
ghost use Rattle.std.specs.Prelude.{◌≡◌};
ghost use Rattle.register.specs.Registers.{readable, writable, accepts};
ghost use Rattle.register.specs.Table.{after_reset};

use crate::fields::bits;
use frame::Make;

/// What a register, by its number, holds after wake or reset. MR1 to MR3 can only be read, and hold
/// this always. `None` for a register that is none of 0 to 4 and 8.
pub fn after_reset(make: Make, number: u8) -> Option<u8>
    ensures { result ≡ after_reset make number }
{
    let [mr0, mr1, mr2, mr3] = match make {
        Make::A => [0x09, 0x0d, 0x95, 0xe0],
        Make::S => [0x08, 0x9a, 0xc5, 0x00],
    };
    match number {
        0 => Some(mr0),
        1 => Some(mr1),
        2 => Some(mr2),
        3 => Some(mr3),
        4 => Some(0x40),
        8 => Some(0x05),
        _ => None,
    }
}

/// Whether a register can be read: 0 to 4 and 8.
pub fn readable(number: u8) -> bool
    ensures { result ≡ readable number }
{
    number < 5 || number == 8
}

/// Whether a register can be written: 0, 4 and 8.
pub fn writable(number: u8) -> bool
    ensures { result ≡ writable number }
{
    number == 0 || number == 4 || number == 8
}

/// Whether a register can be written with this value: bits without a name are 0, and no code is
/// reserved.
pub fn accepts(number: u8, value: u8) -> bool
    ensures { result ≡ accepts number value }
{
    match number {
        0 => bits(value, 7, 6) == 0 && bits(value, 4, 2) <= 0b010,
        4 => bits(value, 4, 3) == 0 && matches!(bits(value, 7, 5), 0b000 | 0b100 | 0b010),
        8 => bits(value, 7, 3) == 0,
        _ => false,
    }
}
