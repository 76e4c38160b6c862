//! An echo.

ghost use Rattle.std.specs.Prelude.{◌≡◌, ◌++◌, OnOk};
ghost use Rattle.ss_stats.specs.Set.{place_of};
ghost use Rattle.ss_element.specs.Gives.{Tells};
ghost use Rattle.ss_kinds.specs.declared.names.StatName.TheVariants.{Received};
ghost use Rattle.ss_kinds.specs.Names.{stat_text};
ghost use Rattle.ss_kinds.specs.Number.{no_channel};
ghost use Rattle.ss_kinds.specs.Echo.{echo_handled, echo_form};

use crate::number::{cause_fits, send_load};
use mr_flow::{Load, read_core_load};
use ss_element::{Acts, Element, Flow, RestoreFault, restore_stats, save_stats};
use ss_model::{Action, Cause};
use ss_safe::Local;
use ss_stats::StatSet;
use ss_tally::tally;
use ss_wire::{Reader, Writer};
use std::alloc::{AllocError, Global};

/// Sends back what comes.
#[derive(Drop)]
pub struct Echo {
    /// How long it waits before it does, in picoseconds.
    pub delay: u64,
    /// The statistics that its graph asked for.
    pub stats: StatSet,
    /// The place of `received` among them, if it is there.
    pub received: Option<usize>,
}

impl Echo {
    /// Takes on what was written.
    fn read(&mut self, bytes: &mut Reader<'_>) -> Result<(), RestoreFault>
        ensures { Tells (λ u. self.new) result bytes.new ((echo_form self.old).read bytes.old) }
    {
        restore_stats(&mut self.stats, bytes)
    }

    /// What an echo does.
    pub(crate) fn react(
        &mut self,
        cause: &Cause<Load>,
        acts: &mut Acts<Load>,
    ) -> Result<(), AllocError>
        requires { self.old.received ≡ place_of self.old.stats (stat_text Received) }
        ensures state { OnOk result (self.new ≡ (echo_handled self.old cause.now).state) }
        ensures actions { OnOk result (acts.new ≡ acts.old ++ (echo_handled self.old cause.now).actions) }
    {
        match cause {
            Cause::Link { load, .. } => {
                let Load::Core { n } = load else {
                    return Ok(());
                };
                tally(&mut self.stats, self.received, *n as u64);
                if self.delay == 0 {
                    send_load(load, acts)
                } else {
                    acts.push(Action::SelfSend {
                        line: 0,
                        delay: self.delay,
                        load: *load,
                    })
                }
            }
            Cause::Own { load, .. } => {
                let Load::Core { n } = load else {
                    return Ok(());
                };
                send_load(load, acts)
            }
            Cause::Start | Cause::Tick { .. } => Ok(()),
        }
    }
}

impl Element for Echo {
    type Load = Load;

    ghost use Rattle.ss_kinds.specs.Echo.{echo_kind, echo_saving};
    ghost use Rattle.ss_kinds.specs.EchoLaws.{echo_safe, echo_world, echo_saved};

    ghost kind = { echo_kind };

    ghost safe = { echo_safe };

    ghost saving = { echo_saving };

    ghost laws = { echo_world };

    ghost saved = { echo_saved };

    fn handle(
        &mut self,
        _now: u64,
        cause: &Cause<Load>,
        acts: &mut Acts<Load>,
    ) -> Result<(), AllocError> {
        self.react(cause, acts)
    }

    fn save(&self, out: &mut Writer) -> Result<(), AllocError> {
        save_stats(&self.stats, out)
    }

    #[tactic(auto, using(crate::proofs::Restored::told_is_given))]
    fn restore(&mut self, _alloc: Global, bytes: &mut Reader<'_>) -> Result<(), RestoreFault> {
        self.read(bytes)
    }

    fn read_load(&self, bytes: &mut Reader<'_>) -> Result<Load, RestoreFault> {
        read_core_load(bytes)
    }

    fn fits(&self, _at: u64) -> bool {
        true
    }

    fn fits_load(&self, cause: &Cause<Load>, _at: u64) -> bool {
        cause_fits(cause)
    }

    fn is_primary(&self) -> bool {
        false
    }

    fn is_done(&self) -> bool {
        true
    }

    fn clock_on(&self, _clock: u16) -> bool {
        false
    }

    fn channels(&self, _port: u16) -> u16 {
        0
    }

    /// Nothing: no port has a channel.
    fn flow(&self, _port: u16, _channel: u8) -> Flow
        ensures { result ≡ no_channel }
    {
        Flow {
            credits: 0,
            queued: 0,
            capacity: 0,
        }
    }

    fn stats(&self) -> &StatSet {
        &self.stats
    }
}

impl Local for Echo {
    ghost use Rattle.ss_kinds.specs.Echo.{echo_allowed};
    ghost use Rattle.ss_kinds.specs.EchoLaws.{echo_laws, echo_saves};

    ghost allowed = { echo_allowed };

    ghost local = { echo_laws };

    ghost saves = { echo_saves };

    ghost tied = { λ w now s. (λ h. h, λ h. h) };
}
