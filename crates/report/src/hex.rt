//! Bytes and addresses in upper-case hexadecimal digits.
ghost use Rattle.std.specs.Prelude.{◌≡◌, ◌+◌, ◌*◌, ◌/◌, ◌%◌, ◌<◌, Some};
ghost use Rattle.report.specs.Hex.{hex_digit, hex_byte, hex_bytes, six_digits, digit_value};

use std::fmt;

const DIGITS: [u8; 16] = *b"0123456789ABCDEF";

// One digit.
fn digit(value: u8) -> char
    requires { value < 16 }
    ensures { result ≡ hex_digit value }
{
    char::from(DIGITS[usize::from(value)])
}

/// The two digits of a byte, the high one first. Read back they are the byte.
pub fn digits(byte: u8) -> (char, char)
    ensures high { result.0 ≡ hex_digit (byte / 16) }
    ensures low { result.1 ≡ hex_digit (byte % 16) }
    ensures read_back { 16 * digit_value result.0 + digit_value result.1 ≡ byte }
{
    (digit(byte >> 4), digit(byte & 0x0f))
}

/// A byte in two digits.
#[derive(Clone, Copy, Debug, PartialEq, Eq)]
pub struct HexByte(pub u8);

impl fmt::Display for HexByte {
    ghost output = { λ h. Some (hex_byte h.0) };

    fn fmt<W: fmt::Write>(&self, f: &mut fmt::Formatter<W>) -> fmt::Result {
        let (high, low) = digits(self.0);
        write!(f, "{high}{low}")
    }
}

/// The low three bytes of an address in six digits.
#[derive(Clone, Copy, Debug, PartialEq, Eq)]
pub struct Address(pub u32);

impl fmt::Display for Address {
    ghost output = { λ a. Some (six_digits a.0) };

    fn fmt<W: fmt::Write>(&self, f: &mut fmt::Formatter<W>) -> fmt::Result {
        let [_, high, middle, low] = self.0.to_be_bytes();
        write!(f, "{}{}{}", HexByte(high), HexByte(middle), HexByte(low))
    }
}

/// Bytes in two digits each.
#[derive(Clone, Copy, Debug, PartialEq, Eq)]
pub struct HexBytes<'a>(pub &'a [u8]);

impl fmt::Display for HexBytes<'_> {
    ghost output = { λ h. Some (hex_bytes h.0.now) };

    fn fmt<W: fmt::Write>(&self, f: &mut fmt::Formatter<W>) -> fmt::Result {
        for byte in self.0 {
            write!(f, "{}", HexByte(*byte))?;
        }
        Ok(())
    }
}
