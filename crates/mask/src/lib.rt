//! Masks: one bit for each byte of a write, lowest bit first; a set bit means that the byte is not
//! written.
#![tactic(auto)]

ghost use Rattle.std.specs.Prelude.{◌≡◌, ℕ, ◌*◌, ◌↔◌, length, IsTrue};
ghost use Rattle.frame.specs.Low.{saturated};
ghost use Rattle.mask.specs.Masks.{size, masked, masked_among, MasksPast, HasBitPast};

/// The bytes of a mask for this many bytes.
pub fn size(count: usize) -> usize
    ensures { result ≡ size count }
{
    count.div_ceil(8)
}

/// Whether byte `i` of a write is masked. Past the end of the mask nothing is.
pub fn masked(mask: &[u8], i: usize) -> bool
    ensures { result ≡ masked mask.now i }
{
    mask.get(i / 8)
        .is_some_and(|byte| (byte >> (i % 8)) & 1 == 1)
}

// Whether byte `k` of a mask has a bit set for a byte at or past `count`.
fn has_bit_past(byte: u8, k: usize, count: usize) -> bool
    ensures { IsTrue result ↔ HasBitPast byte k count }
{
    if k < count / 8 {
        false
    } else if k == count / 8 {
        byte >> (count % 8) != 0
    } else {
        byte != 0
    }
}

/// Whether a byte at or past `count` is masked.
pub fn masks_past(mask: &[u8], count: usize) -> bool
    ensures { IsTrue result ↔ MasksPast mask.now count }
{
    for (k, byte) in mask.iter().enumerate() {
        if has_bit_past(*byte, k, count) {
            return true;
        }
    }
    false
}

/// How many bytes the mask keeps from being written; this stays at 2^64 - 1. For a write that no
/// bit is set past, these are its masked bytes.
pub fn masked_bytes(mask: &[u8]) -> u64
    ensures value { result ≡ saturated (masked_among mask.now (8 * length mask.now)) }
    ensures among { (n : ℕ) → ¬ MasksPast mask.now n
        → result ≡ saturated (masked_among mask.now n) }
{
    let mut count = 0u64;
    for byte in mask {
        count = count.saturating_add(u64::from(byte.count_ones()));
    }
    count
}
