//! The models of both makes: one type, with the make as a part of it.

ghost use Rattle.std.specs.Prelude.{◌≡◌, ◌↔◌, length, Some, None, IsOk, IfOk, IfErr, IsTrue};
ghost use Rattle.fault.specs.Refusals.{details};
ghost use Rattle.chip.specs.Runs.{Does};
ghost use Rattle.chip.specs.Sent.{resetting, send_event};
ghost use Rattle.model.specs.Contents.{contents, meaning, SameBuild};
ghost use Rattle.model.specs.Fresh.{is_bad_store, refused, IsFresh};
ghost use Rattle.model.specs.OneOutcome.{one_outcome, same_composes, means_the_same};
ghost use Rattle.model.specs.Step.{Exactly};
ghost use Rattle.model.specs.Wins.{WritesWin};
ghost use Rattle.std.proofs.Common.{rules};

use crate::config::config;
use crate::device::Device;
use crate::part::{Part, PartA, PartS};
use chip::{Chip, Config, Exact, Frame, Reply, State};
use clock::TemperatureRange;
use fault::{Fault, Returned};
use register::Coverage;
use std::marker::PhantomData;

/// A model of a part.
#[derive(Drop)]
pub struct Model<P: Part> {
    device: Device,
    part: PhantomData<P>,
    ghost own: { device.config.make ≡ P.MAKE },
}

pub type ModelA = Model<PartA>;

pub type ModelS = Model<PartS>;

impl<P: Part> Model<P> {
    /// A model over a store, not woken yet. Refused by 1 where the store is above 16 MiB, of none,
    /// or of no whole number of pages, then by 2 and 3 for the clock; the store comes back.
    ///
    /// Bit k mod 32 of the refresh word is set where the k-th variable read meets a refresh. The
    /// strobe goes once `strobe_count` reads are answered; 0 is never.
    pub fn new(
        store: Vec<u8>,
        khz: u32,
        range: TemperatureRange,
        refresh_word: u32,
        strobe_count: u16,
    ) -> Result<Model<P>, Returned<Vec<u8>>>
        ensures taken { IsOk result ↔ (refused P.MAKE (length store.items) khz range ≡ None) }
        ensures fresh { IfOk result (λ m.
            IsFresh P.MAKE store.items khz range refresh_word strobe_count (contents m.device)) }
        ensures refused { IfErr result (λ back.
            refused P.MAKE (length store.items) khz range ≡ Some back.fault.refusal) }
        ensures bad_store { IfErr result (λ back.
            ((details back.fault.refusal).number ≡ 1)
            ↔ IsTrue (is_bad_store P.MAKE (length store.items))) }
        ensures place { IfErr result (λ back. back.fault.place ≡ 0) }
        ensures same_store { IfErr result (λ back. back.value.items ≡ store.items) }
    {
        match config(P::MAKE, store.len(), khz, range) {
            Ok(config) => Ok(Model {
                device: Device::new(config, store, refresh_word, strobe_count),
                part: PhantomData,
            }),
            Err(refusal) => Err(Returned {
                fault: refusal.at(0),
                value: store,
            }),
        }
    }
}

impl<P: Part> Chip for Model<P> {
    ghost meaning = { λ m. meaning (contents m.device) };

    ghost gives = { λ m e n. Exactly (contents m.device) e (contents n.device) };

    ghost same_config = { λ m n. SameBuild (contents m.device) (contents n.device) };

    ghost lawful = { Prim.search rules };

    ghost same_composes = { same_composes (λ m. contents m.device) };

    ghost means_the_same = { λ m n. means_the_same (contents m.device) (contents n.device) };

    fn config(&self) -> Config {
        self.device.config
    }

    fn state(&self) -> State {
        self.device.state
    }

    fn refreshed(&self, coverage: Coverage, from: u32, count: u32) -> bool {
        self.device.refreshed(coverage, from, count)
    }

    fn send(&mut self, gap: u32, frame: Frame<'_>, buffer: &mut [u8]) -> Result<Reply, Fault>
        ensures own { Exactly (contents self.old.device)
            (send_event gap frame.entry buffer.old result buffer.new)
            (contents self.new.device) }
        ensures does { Does (meaning (contents self.old.device))
            (send_event gap frame.entry buffer.old result buffer.new)
            (meaning (contents self.new.device)) }
        ensures same { SameBuild (contents self.old.device) (contents self.new.device) }
        ensures writes_win { WritesWin }
    {
        self.device.send(gap, frame, buffer)
    }

    fn reset(&mut self, pulse: u32) -> Result<(), Fault> {
        self.device.reset(pulse)
    }
}

impl<P: Part> Exact for Model<P> {
    ghost shows_same = { λ m n. contents m.device ≡ contents n.device };

    ghost one_outcome = { one_outcome (λ m. contents m.device) };
}
