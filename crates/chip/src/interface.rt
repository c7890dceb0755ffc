//! The interface of a chip.

ghost use Rattle.std.specs.Prelude.{◌≡◌, ◌↔◌, IsTrue, length};
ghost use Rattle.chip.specs.Exact.{OneOutcome};
ghost use Rattle.chip.specs.Meaning.{Meaning, RefreshesAll, Lawful, SameConfig, Composes};
ghost use Rattle.chip.specs.Runs.{Does};
ghost use Rattle.chip.specs.Sent.{Event, resetting, send_event};

use crate::bus_frame::{Frame, Reply};
use crate::config::Config;
use crate::state::State;
use fault::Fault;
use register::Coverage;

/// Whatever takes frames and resets as the data sheets say.
///
/// What a frame does is said twice: by what the chip means (`meaning`), which leaves free what the
/// data sheets leave free, and by a relation of the chip's own choice (`gives`). Whoever promises
/// that relation of a chip that is known by this trait alone has sent just this frame to it.
pub trait Chip {
    /// What the chip is and holds.
    ghost meaning: { Self → Meaning };

    /// What an event does to this chip, by its own account: the value before, the event, the value after.
    ghost gives: { Self → Event → Self → Type 0 };

    /// What never changes of this chip is the same, before and after.
    ghost same_config: { Self → Self → Type 0 };

    /// The make, the size and the clock numbers.
    fn config(&self) -> Config
        ensures { result ≡ (meaning self.now).config };

    /// All that changes but the bytes.
    fn state(&self) -> State
        ensures { result ≡ (meaning self.now).state };

    /// Whether a coverage (PASR) refreshes each of `count` addresses from `from` on.
    fn refreshed(&self, coverage: Coverage, from: u32, count: u32) -> bool
        ensures { IsTrue result ↔ RefreshesAll (meaning self.now) coverage from count };

    /// Sends one frame after a gap of so many clocks with CE# high. A read that is answered fills
    /// the buffer, which else stays as it was.
    fn send(&mut self, gap: u32, frame: Frame<'_>, buffer: &mut [u8]) -> Result<Reply, Fault>
        ensures own { gives self.old (send_event gap frame.entry buffer.old result buffer.new)
            self.new }
        ensures does { Does (meaning self.old)
            (send_event gap frame.entry buffer.old result buffer.new) (meaning self.new) }
        ensures same { same_config self.old self.new };

    /// Resets the chip by a pulse of so many clocks on RESET#.
    fn reset(&mut self, pulse: u32) -> Result<(), Fault>
        ensures own { gives self.old (resetting pulse result) self.new }
        ensures does { Does (meaning self.old) (resetting pulse result) (meaning self.new) }
        ensures same { same_config self.old self.new };

    ghost lawful: { (c : Self) → Lawful (meaning c) };

    ghost same_composes: { Composes same_config };

    ghost means_the_same: { (c d : Self) → same_config c d → SameConfig (meaning c) (meaning d) };
}

/// A chip of which each frame and each pulse has one outcome: the models, and layers over such
/// chips.
pub trait Exact: Chip {
    /// The two values show the same.
    ghost shows_same: { Self → Self → Type 0 };

    ghost one_outcome: { OneOutcome Self.meaning Self.gives shows_same };
}
