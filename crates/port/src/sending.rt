//! Frames and pulses, one at a time: nothing else of the port touches its chip.
ghost use Rattle.std.specs.Prelude.{◌≡◌, ◌≤◌, [], ◌∷◌, length};
ghost use Rattle.chip.specs.Chains.{IsExchange};
ghost use Rattle.chip.specs.Exchanges.{exchange_of, least_gap_of};
ghost use Rattle.chip.specs.Sent.{sent, global_reset};
ghost use Rattle.chip.specs.declared.state.Phase.TheVariants.{Unwoken, Awake};
ghost use Rattle.port.specs.Acts.{IsPulse};
ghost use Rattle.chip.specs.Sizes.{most_clocks};
ghost use Rattle.port.specs.Carried.{IsFit, CarriesOut};
ghost use Rattle.port.specs.Plans.{send};

use crate::traffic::Traffic;
use chip::{Chip, Frame, Outcome, exchange};

// Sends a frame as soon as the chip takes it, after the least gap.
pub(crate) fn transmit<C: Chip>(chip: &mut C, frame: Frame<'_>, buffer: &mut [u8]) -> Outcome
    requires fit { IsFit (C.Chip.meaning chip.old) (sent frame (length buffer.old)) }
    ensures exchange { IsExchange C.Chip.meaning C.Chip.gives chip.old
        (exchange_of (least_gap_of (C.Chip.meaning chip.old)) frame.entry buffer.old
        result.answer buffer.new result.low) chip.new }
    ensures same { C.Chip.same_config chip.old chip.new }
    ensures short { result.low ≤ most_clocks }
{
    let gap = chip.state().least_gap(&chip.config());
    exchange(chip, gap, frame, buffer)
}

// Pulses RESET# for tRP.
pub(crate) fn pulse<C: Chip>(chip: &mut C)
    requires awake { (C.Chip.meaning chip.old).state.phase ≡ Awake }
    ensures pulse { IsPulse C.Chip.meaning C.Chip.gives chip.old
        (C.Chip.meaning chip.old).config.clock.trp chip.new }
    ensures same { C.Chip.same_config chip.old chip.new }
{
    let _answer = chip.reset(chip.config().clock.trp);
}

// Wakes a chip by a global reset.
pub(crate) fn wake<C: Chip>(chip: &mut C) -> Traffic
    requires unwoken { (C.Chip.meaning chip.old).state.phase ≡ Unwoken }
    ensures carries { CarriesOut C.Chip.meaning C.Chip.gives chip.old (send global_reset ∷ [])
        result chip.new }
    ensures awake { (C.Chip.meaning chip.new).state.phase ≡ Awake }
    ensures same { C.Chip.same_config chip.old chip.new }
{
    let outcome = transmit(chip, Frame::GlobalReset, &mut []);
    Traffic::NONE.and_frame(outcome.low)
}
