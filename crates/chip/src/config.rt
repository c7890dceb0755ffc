//! What never changes of a chip.

ghost use Rattle.std.specs.Prelude.{◌≡◌, ◌*◌, ◌≤◌};
ghost use Rattle.frame.specs.Pages.{page};
ghost use Rattle.chip.specs.Sizes.{largest_size};

use clock::Clock;
use frame::Make;

/// The bytes of a scratch for one frame: the most of any frame that a chip takes, 2 × (532 − 3 − 3)
/// of a write, tCEM being 532 clocks at most.
pub const SCRATCH: usize = 1_052;

/// What never changes of a chip: its make, its size and its clock numbers.
#[derive(Clone, Copy, Debug, PartialEq, Eq)]
pub struct Config {
    pub make: Make,
    /// The size in pages of the make: one page to 16 MiB.
    pub pages: u32,
    pub clock: Clock,
    ghost has_page: { 1 ≤ pages },
    ghost within_16_mib: { pages * page make ≤ largest_size },
}

impl Config {
    ghost use Rattle.chip.specs.Meaning.{size, most_low};

    /// The size in bytes.
    pub fn size(&self) -> u32
        ensures { result ≡ size self.now }
    {
        self.pages * self.make.page()
    }

    /// The most clocks that CE# may be low for one frame: tCEM.
    pub fn most_low_clocks(&self) -> u64
        ensures { result ≡ most_low self.now }
    {
        u64::from(self.clock.tcem)
    }
}
