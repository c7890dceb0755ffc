//! Writes of registers.
ghost use Rattle.std.specs.Prelude.{◌≡◌, [], ◌∷◌, true};
ghost use Rattle.chip.specs.declared.state.Phase.TheVariants.{Awake};
ghost use Rattle.port.specs.Carried.{CarriesOut, Sets};
ghost use Rattle.port.specs.Plans.{set, set_up, select_line};
ghost use Rattle.port.specs.Wakes.{IsReady};
ghost use Rattle.register.specs.Registers.{accepts, mr0, mr0_value, mr4_value};

use crate::sending::transmit;
use crate::traffic::Traffic;
use chip::{Chip, Config, Frame};
use register::{CacheLine, Coverage, LatencyType, Mr0, Mr4, after_reset};

// Writes a register.
fn set<C: Chip>(chip: &mut C, number: u8, value: u8) -> Traffic
    requires awake { (C.Chip.meaning chip.old).state.phase ≡ Awake }
    requires accepted { accepts number value ≡ true }
    ensures carries { CarriesOut C.Chip.meaning C.Chip.gives chip.old (set number value ∷ [])
        result chip.new }
    ensures sets { Sets number value (C.Chip.meaning chip.old) (C.Chip.meaning chip.new) }
    ensures same { C.Chip.same_config chip.old chip.new }
{
    let outcome = transmit(chip, Frame::RegisterWrite { number, value }, &mut []);
    Traffic::NONE.and_frame(outcome.low)
}

// After wake and reset: MR0 for the clock, variable, with the drive bits of its reset value; MR4
// for the clock, with the full coverage.
pub(crate) fn set_up<C: Chip>(chip: &mut C) -> Traffic
    requires awake { (C.Chip.meaning chip.old).state.phase ≡ Awake }
    ensures carries { CarriesOut C.Chip.meaning C.Chip.gives chip.old
        (set_up (C.Chip.meaning chip.old).config) result chip.new }
    ensures ready { IsReady (C.Chip.meaning chip.new) }
    ensures same { C.Chip.same_config chip.old chip.new }
{
    let Config { make, clock, .. } = chip.config();
    let drive = Mr0::from(after_reset(make, 0).unwrap_or(0)).drive;
    let first = set(chip, 0, Mr0::value(&clock, LatencyType::Variable, drive));
    let second = set(chip, 4, Mr4::value(&clock, Coverage::All));
    first.and(second)
}

// Writes the latency type; MR0 keeps the drive code.
pub(crate) fn set_latency_type<C: Chip>(chip: &mut C, latency_type: LatencyType) -> Traffic
    requires ready { IsReady (C.Chip.meaning chip.old) }
    ensures carries { CarriesOut C.Chip.meaning C.Chip.gives chip.old
        (set 0 (mr0_value (C.Chip.meaning chip.old).config.clock.lc latency_type
        (mr0 (C.Chip.meaning chip.old).state.mr0).drive) ∷ []) result chip.new }
    ensures same { C.Chip.same_config chip.old chip.new }
{
    let drive = Mr0::from(chip.state().mr0).drive;
    let value = Mr0::value(&chip.config().clock, latency_type, drive);
    set(chip, 0, value)
}

// Writes the coverage.
pub(crate) fn set_coverage<C: Chip>(chip: &mut C, coverage: Coverage) -> Traffic
    requires ready { IsReady (C.Chip.meaning chip.old) }
    ensures carries { CarriesOut C.Chip.meaning C.Chip.gives chip.old
        (set 4 (mr4_value (C.Chip.meaning chip.old).config.clock.wl coverage) ∷ [])
        result chip.new }
    ensures same { C.Chip.same_config chip.old chip.new }
{
    let value = Mr4::value(&chip.config().clock, coverage);
    set(chip, 4, value)
}

// Writes MR8 for the wrapped read of a line, unless it holds that already.
pub(crate) fn select<C: Chip>(chip: &mut C, line: CacheLine) -> Traffic
    requires ready { IsReady (C.Chip.meaning chip.old) }
    ensures carries { CarriesOut C.Chip.meaning C.Chip.gives chip.old
        (select_line (C.Chip.meaning chip.old).state line) result chip.new }
    ensures ready { IsReady (C.Chip.meaning chip.new) }
    ensures same { C.Chip.same_config chip.old chip.new }
{
    let value = line.mr8();
    if chip.state().mr8 == value {
        return Traffic::NONE;
    }
    set(chip, 8, value)
}
