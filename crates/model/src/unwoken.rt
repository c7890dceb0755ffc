//! The registers after wake or reset, and a chip that is not woken yet.

ghost use Rattle.std.specs.Prelude.{◌≡◌};
ghost use Rattle.chip.specs.Taken.{reset_value};
ghost use Rattle.model.specs.Fresh.{unwoken_state};

use chip::{Phase, State};
use frame::Make;
use register::after_reset;

/// What a register holds after wake or reset; 0 for a number without a register.
pub(crate) fn reset_value(make: Make, number: u8) -> u8
    ensures { result ≡ reset_value make number }
{
    after_reset(make, number).unwrap_or(0)
}

/// The state of a chip that is not woken yet.
pub(crate) fn unwoken_state(make: Make) -> State
    ensures { result ≡ unwoken_state make }
{
    State {
        mr0: reset_value(make, 0),
        mr4: reset_value(make, 4),
        mr8: reset_value(make, 8),
        phase: Phase::Unwoken,
        strobe: true,
        trst_due: false,
        latest_low: 0,
        frames: 0,
        clocks: 0,
    }
}
