//! One frame sent, with its low clocks; the laws of whole runs and chains.

ghost use Rattle.std.specs.Prelude.{◌≡◌};
ghost use Rattle.chip.specs.Chains.{EveryChain};
ghost use Rattle.chip.specs.Exact.{OneOutcome, OneOutcomeOfChains};
ghost use Rattle.chip.specs.Exchanges.{low_by_answer, least_gap_of, exchange_of};
ghost use Rattle.chip.specs.Exchanges.{IsRunStep, LengthensChains};
ghost use Rattle.chip.specs.Runs.{ChangedByWritesOnly, CountsRiseByWhatWasSent};
ghost use Rattle.chip.specs.Runs.{RefusedLeavesEverything, StrobeReturnsByResetAlone};
ghost use Rattle.chip.specs.Runs.{ConfigNeverChanges};
ghost use Rattle.chip.specs.Sent.{send_event};

use crate::bus_frame::{Frame, Reply};
use crate::interface::{Chip, Exact};
use fault::{Fault, Refusal};

/// What came of one frame.
#[derive(Clone, Copy, Debug, PartialEq, Eq)]
pub struct Outcome {
    pub answer: Result<Reply, Fault>,
    /// The clocks that CE# was low: 0 where the frame was refused.
    pub low: u64,
}

// How long CE# was low for a frame with this answer. A read without the strobe was sent; what was
// refused was not.
fn low_by_answer(answer: Result<Reply, Fault>, latest: u64) -> u64
    ensures { result ≡ low_by_answer answer latest }
{
    match answer.map_err(|fault| fault.refusal) {
        Ok(_) | Err(Refusal::NoStrobe(_)) => latest,
        Err(_) => 0,
    }
}

/// Sends one frame after a gap, and says how long CE# was low: one step of a run, and one exchange
/// of a chain where the gap is the least one and the frame is taken. The clauses from
/// `changed_by_writes_only` on are true of every run and every chain of this chip.
pub fn exchange<C: Chip>(chip: &mut C, gap: u32, frame: Frame<'_>, buffer: &mut [u8]) -> Outcome
    ensures own { C.Chip.gives chip.old
        (send_event gap frame.entry buffer.old result.answer buffer.new) chip.new }
    ensures step { IsRunStep (C.Chip.meaning chip.old)
        (send_event gap frame.entry buffer.old result.answer buffer.new) result.low
        (C.Chip.meaning chip.new) }
    ensures lengthens { LengthensChains C.Chip.meaning C.Chip.gives chip.old
        (exchange_of gap frame.entry buffer.old result.answer buffer.new result.low) chip.new }
    ensures same { C.Chip.same_config chip.old chip.new }
    ensures changed_by_writes_only { ChangedByWritesOnly }
    ensures counts_rise_by_what_was_sent { CountsRiseByWhatWasSent }
    ensures refused_leaves_everything { RefusedLeavesEverything }
    ensures strobe_returns_by_reset_alone { StrobeReturnsByResetAlone }
    ensures config_never_changes { ConfigNeverChanges }
    ensures every_chain { EveryChain C.Chip.meaning C.Chip.gives }
{
    let answer = chip.send(gap, frame, buffer);
    let low = low_by_answer(answer, chip.state().latest_low);
    Outcome { answer, low }
}

/// Sends one frame to an exact chip as soon as the chip takes it, after the least gap. Frames sent
/// so one after another have one outcome.
pub fn exchange_soonest<C: Exact>(chip: &mut C, frame: Frame<'_>, buffer: &mut [u8]) -> Outcome
    ensures own { C.Chip.gives chip.old (send_event (least_gap_of (C.Chip.meaning chip.old))
        frame.entry buffer.old result.answer buffer.new) chip.new }
    ensures step { IsRunStep (C.Chip.meaning chip.old)
        (send_event (least_gap_of (C.Chip.meaning chip.old))
        frame.entry buffer.old result.answer buffer.new) result.low (C.Chip.meaning chip.new) }
    ensures lengthens { LengthensChains C.Chip.meaning C.Chip.gives chip.old
        (exchange_of (least_gap_of (C.Chip.meaning chip.old))
        frame.entry buffer.old result.answer buffer.new result.low) chip.new }
    ensures same { C.Chip.same_config chip.old chip.new }
    ensures one_outcome { OneOutcome C.Chip.meaning C.Chip.gives C.Exact.shows_same }
    ensures of_chains { OneOutcomeOfChains C.Chip.meaning C.Chip.gives C.Exact.shows_same }
{
    let gap = chip.state().least_gap(&chip.config());
    exchange(chip, gap, frame, buffer)
}
