//! A scrambler over a window over a chip.

ghost use Rattle.std.specs.Prelude.{◌≡◌, ◌↔◌, ◌<◌, IsOk, IfOk, IfErr};
ghost use Rattle.fault.specs.Refusals.{details, refuses};
ghost use Rattle.fault.specs.declared.Layer.TheVariants.{Chip as ChipLayer};
ghost use Rattle.scrambler.specs.Scramblers.{key_at};
ghost use Rattle.scrambler.specs.Stacks.{WrittenComesBack};
ghost use Rattle.window.specs.Windows.{shift, moved};

use crate::scrambling::Scrambler;
use chip::Chip;
use fault::Returned;
use window::Window;

impl<C: Chip> Scrambler<Window<C>> {
    /// A scrambler with this key over a window that hides the first `hidden` pages. Refused by 20
    /// where no page would be left to see; then the chip comes back.
    pub fn over_window(
        chip: C,
        hidden: u32,
        key: [u8; 16],
    ) -> Result<Scrambler<Window<C>>, Returned<C>>
        ensures made { IsOk result ↔ (hidden < (C.Chip.meaning chip).config.pages) }
        ensures over { IfOk result (λ s. s.chip.chip ≡ chip) }
        ensures hides { IfOk result (λ s. s.chip.hidden ≡ hidden) }
        ensures key { IfOk result (λ s. s.key ≡ key) }
        ensures refused { IfErr result (λ e. details e.fault.refusal ≡ refuses ChipLayer 20) }
        ensures place { IfErr result (λ e. e.fault.place ≡ 0) }
        ensures back { IfErr result (λ e. e.value ≡ chip) }
    {
        Window::new(chip, hidden).map(|window| Scrambler::new(window, key))
    }

    /// Where the byte at an address lies in the chip below the window, at most 2^32 - 1, and the key
    /// byte of the address, with which it is combined there. What is written through the stack comes
    /// back through it.
    pub fn lies_at(&self, address: u32) -> (u32, u8)
        ensures below { result.0 ≡ moved
            (shift self.now.chip.hidden (C.Chip.meaning self.now.chip.chip).config) address }
        ensures key { result.1 ≡ key_at self.now.key address }
        ensures comes_back { WrittenComesBack }
    {
        (
            address.saturating_add(self.chip.shift()),
            self.key_byte(address),
        )
    }
}
