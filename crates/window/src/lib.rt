//! A window over any chip: it hides the first pages, and is a chip again.
#![tactic(auto)]

ghost use Rattle.std.specs.Prelude.{◌≡◌, ◌↔◌, ◌<◌, ◌≤◌, IsOk, IfOk, IfErr};
ghost use Rattle.chip.specs.Runs.{Does};
ghost use Rattle.chip.specs.Sent.{resetting, send_event};
ghost use Rattle.fault.specs.Refusals.{details, refuses};
ghost use Rattle.fault.specs.declared.Layer.TheVariants.{Chip as ChipLayer};

use chip::{Chip, Config, Exact, Frame, Reply, State};
use fault::{Fault, Refusal, Returned};
use register::Coverage;

/// A chip with its first pages hidden.
#[derive(Drop)]
pub struct Window<C: Chip> {
    chip: C,
    hidden: u32,
    ghost page_left: { hidden < (C.Chip.meaning chip).config.pages },
}

impl<C: Chip> Window<C> {
    ghost use Rattle.window.specs.Windows.{shift};

    /// A window that hides the first `hidden` pages. Refused by 20 where no page would be left to
    /// see; then the chip comes back.
    pub fn new(chip: C, hidden: u32) -> Result<Window<C>, Returned<C>>
        ensures made { IsOk result ↔ (hidden < (C.Chip.meaning chip).config.pages) }
        ensures over { IfOk result (λ w. w.chip ≡ chip) }
        ensures hides { IfOk result (λ w. w.hidden ≡ hidden) }
        ensures refused { IfErr result (λ e. details e.fault.refusal ≡ refuses ChipLayer 20) }
        ensures place { IfErr result (λ e. e.fault.place ≡ 0) }
        ensures back { IfErr result (λ e. e.value ≡ chip) }
    {
        if hidden >= chip.config().pages {
            return Err(Returned {
                fault: Refusal::WindowTooLarge.at(0),
                value: chip,
            });
        }
        Ok(Window { chip, hidden })
    }

    /// The chip below.
    pub fn into_chip(self) -> C
        ensures { result ≡ self.chip }
    {
        self.chip
    }

    /// How far the addresses are moved.
    pub fn shift(&self) -> u32
        ensures { result ≡ shift self.now.hidden (C.Chip.meaning self.now.chip).config }
    {
        self.hidden * self.chip.config().make.page()
    }
}

impl<C: Chip> Chip for Window<C> {
    ghost use Rattle.window.specs.Windows.{window, Windowed};
    ghost use Rattle.window.specs.Laws.{lawful_window, same_composes, same_config_above};

    ghost meaning = { λ w. window w.hidden (C.Chip.meaning w.chip) w.page_left };

    ghost gives = { λ w e v.
        Windowed C.Chip.meaning C.Chip.gives w.hidden w.chip e v.hidden v.chip };

    ghost same_config = { λ w v. (v.hidden ≡ w.hidden) × C.Chip.same_config w.chip v.chip };

    ghost lawful = { λ w. lawful_window _ _ w.page_left (C.Chip.lawful w.chip) };

    ghost same_composes = { same_composes (λ w. w.hidden) (λ w. w.chip) _ C.Chip.same_composes };

    ghost means_the_same = { λ w v same. same_config_above w.hidden v.hidden _ _ same.0
        (C.Chip.means_the_same w.chip v.chip same.1) w.page_left v.page_left };

    fn config(&self) -> Config {
        let config = self.chip.config();
        Config {
            make: config.make,
            pages: config.pages - self.hidden,
            clock: config.clock,
        }
    }

    fn state(&self) -> State {
        self.chip.state()
    }

    fn refreshed(&self, coverage: Coverage, from: u32, count: u32) -> bool {
        self.chip
            .refreshed(coverage, from.saturating_add(self.shift()), count)
    }

    fn send(&mut self, gap: u32, frame: Frame<'_>, buffer: &mut [u8]) -> Result<Reply, Fault> {
        let shift = self.shift();
        let place = frame.place();
        let below = match frame {
            Frame::Read { burst, start } => Frame::Read {
                burst,
                start: start.saturating_add(shift),
            },
            Frame::Write {
                burst,
                start,
                data,
                mask,
            } => Frame::Write {
                burst,
                start: start.saturating_add(shift),
                data,
                mask,
            },
            _ => frame,
        };
        self.chip
            .send(gap, below, buffer)
            .map_err(|fault| fault.refusal.at(place))
    }

    fn reset(&mut self, pulse: u32) -> Result<(), Fault> {
        self.chip.reset(pulse)
    }
}

impl<C: Exact> Exact for Window<C> {
    ghost use Rattle.window.specs.Laws.{window_outcome};

    ghost shows_same = { λ w v. (w.hidden ≡ v.hidden) × C.Exact.shows_same w.chip v.chip };

    ghost one_outcome = { window_outcome (λ w. w.hidden) (λ w. w.chip) _ _ _ (λ w. w.page_left)
        C.Exact.one_outcome };
}
