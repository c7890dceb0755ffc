//! What the frames of a write carry.
ghost use Rattle.std.specs.Prelude.{◌≡◌, ◌+◌, ◌-◌, ◌*◌, ◌^◌, ◌<◌, ◌≤◌, ◌&&◌, length, map, nat_lt};
ghost use Rattle.std.specs.List.{range_with_len};
ghost use Rattle.mask.specs.Masks.{size as mask_size};
ghost use Rattle.port.specs.Plans.{is_inside, byte_for, masks, bits_from, data_of, mask_of};

use frame::Span;

// The data and the mask of a write, and where it starts.
#[derive(Clone, Copy)]
pub(crate) struct Payload<'a> {
    pub(crate) start: u32,
    pub(crate) data: &'a [u8],
    pub(crate) mask: &'a [u8],
}

impl Payload<'_> {
    ghost use Rattle.port.specs.Payloads.{masks_in};

    // Whether an address is one of the write's own.
    fn is_inside(&self, address: u32) -> bool
        ensures { result ≡ is_inside self.now.start (length self.now.«data».now) address }
    {
        address >= self.start && ((address - self.start) as usize) < self.data.len()
    }

    // What is sent to an address: 0 where rounding added it.
    fn byte_for(&self, address: u32) -> u8
        ensures { result ≡ byte_for self.now.start self.now.«data».now address }
    {
        if self.is_inside(address) {
            self.data[(address - self.start) as usize]
        } else {
            0
        }
    }

    // Whether an address is masked: where rounding added it, or the request masks it.
    fn masks(&self, address: u32) -> bool
        ensures { result ≡ masks self.now.start self.now.«data».now self.now.mask.now address }
    {
        !self.is_inside(address) || mask::masked(self.mask, (address - self.start) as usize)
    }

    // Whether bit `i` of the mask of a piece is set. No spare bit is.
    fn masks_in(&self, piece: Span, i: u32) -> bool
        ensures { result ≡ masks_in self.now piece i }
    {
        i < piece.bytes() && self.masks(piece.from + i)
    }

    // Byte `k` of the mask of a piece.
    fn mask_byte(&self, piece: Span, k: u32) -> u8
        requires { 8 * k + 8 < 2 ^ 32 }
        ensures { result ≡ bits_from (masks_in self.now piece) (8 * k) 8 }
    {
        let mut byte = 0;
        for j in 0..8 {
            byte = 2 * byte + u8::from(self.masks_in(piece, 8 * k + 7 - j));
        }
        byte
    }

    // Puts the bytes of a piece into the data of its frame.
    pub(crate) fn put_data(&self, piece: Span, bytes: &mut [u8])
        requires { length bytes.old ≡ piece.to - piece.from }
        ensures { bytes.new ≡ data_of self.now.start self.now.«data».now piece }
    {
        for (i, byte) in bytes.iter_mut().enumerate() {
            *byte = self.byte_for(piece.from + i as u32);
        }
    }

    // Puts the mask of a piece into the mask of its frame.
    pub(crate) fn put_mask(&self, piece: Span, mask: &mut [u8])
        requires size { length mask.old ≡ mask_size (piece.to - piece.from) }
        requires most { piece.to - piece.from ≤ 4096 }
        ensures { mask.new ≡ mask_of self.now.start self.now.«data».now self.now.mask.now piece }
    {
        for (k, byte) in mask.iter_mut().enumerate() {
            *byte = self.mask_byte(piece, k as u32);
        }
    }
}
