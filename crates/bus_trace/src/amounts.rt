// Amounts in cases: numbers, and words for what depends on the chip.
use clock::Clock;

// What the words stand for. An amount is a number, one of two hexadecimal digits and an h, one of the
// words tCPH, tRST, tPU, tRP, page and drive, or the sum or the difference of two of these.
#[derive(Clone, Copy)]
pub struct Amounts {
    pub clock: Clock,
    // the bytes of a page
    pub page: u32,
    // the drive bits of MR0
    pub drive: u32,
}

impl Amounts {
    pub fn read(&self, text: &str) -> Option<u32> {
        match (text.split_once('+'), text.split_once('-')) {
            (Some((a, b)), _) => self.term(a)?.checked_add(self.term(b)?),
            (None, Some((a, b))) => self.term(a)?.checked_sub(self.term(b)?),
            (None, None) => self.term(text),
        }
    }

    pub fn byte(&self, text: &str) -> Option<u8> {
        u8::try_from(self.read(text)?).ok()
    }

    fn term(&self, text: &str) -> Option<u32> {
        match text {
            "tCPH" => Some(self.clock.tcph),
            "tRST" => Some(self.clock.trst),
            "tPU" => Some(self.clock.tpu),
            "tRP" => Some(self.clock.trp),
            "page" => Some(self.page),
            "drive" => Some(self.drive),
            _ => number(text),
        }
    }
}

fn number(text: &str) -> Option<u32> {
    match text.strip_suffix('h') {
        Some(digits) => u32::from_str_radix(digits, 16).ok(),
        None => text.parse().ok(),
    }
}
