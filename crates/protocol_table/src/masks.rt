// Rows on masks.
use crate::items::{Item, shown};
use crate::words::Word;
use std::alloc::Global;

// The size of a mask for a length, whether a bit of this mask is set past the length, how many
// bytes it masks, and whether one byte is masked.
pub fn mask(heap: Global, mask: &[u8], length: Word, byte: Word) -> Option<String> {
    let length = length.long()? as usize;
    let byte = byte.long()? as usize;
    shown(
        heap,
        &[
            Item::Long(mask::size(length) as u64),
            Item::Flag(mask::masks_past(mask, length)),
            Item::Long(mask::masked_bytes(mask)),
            Item::Flag(mask::masked(mask, byte)),
        ],
    )
}
