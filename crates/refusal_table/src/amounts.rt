// Amounts in cases: numbers, and words for what depends on the chip.
use clock::Clock;

// What the words stand for. An amount is a number, one of two hexadecimal digits and an h, one of the
// words tCPH, tRST, tPU, tRP, size, longest and widest, or the sum or the difference of two of these.
#[derive(Clone, Copy)]
pub struct Amounts {
    pub clock: Clock,
    // the bytes of the chip, seen from above
    pub size: u32,
    // the bytes of the longest read and of the longest write, of a list that speaks of them
    pub longest: Option<u32>,
    pub widest: Option<u32>,
}

impl Amounts {
    pub fn read(&self, text: &str) -> Option<u32> {
        match (text.split_once('+'), text.split_once('-')) {
            (Some((a, b)), _) => self.term(a)?.checked_add(self.term(b)?),
            (None, Some((a, b))) => self.term(a)?.checked_sub(self.term(b)?),
            (None, None) => self.term(text),
        }
    }

    pub fn byte(&self, text: &str) -> Option<u8> {
        u8::try_from(self.read(text)?).ok()
    }

    fn term(&self, text: &str) -> Option<u32> {
        match text {
            "tCPH" => Some(self.clock.tcph),
            "tRST" => Some(self.clock.trst),
            "tPU" => Some(self.clock.tpu),
            "tRP" => Some(self.clock.trp),
            "size" => Some(self.size),
            "longest" => self.longest,
            "widest" => self.widest,
            _ => number(text),
        }
    }
}

fn number(text: &str) -> Option<u32> {
    match text.strip_suffix('h') {
        Some(digits) => u32::from_str_radix(digits, 16).ok(),
        None => text.parse().ok(),
    }
}
