//! A router as an element.

use crate::router::Router;
use mr_flow::{Load, read_net_load};
use ss_element::{Acts, Cause, Element, Flow, RestoreFault};
use ss_safe::Local;
use ss_stats::StatSet;
use ss_wire::{Reader, Writer};
use std::alloc::{AllocError, Global};

impl Element for Router {
    type Load = Load;

    ghost use Rattle.mr_router.specs.Saved.{router_saving};
    ghost use Rattle.mr_router.specs.Kind.{router_kind};
    ghost use Rattle.mr_router.specs.Laws.{router_safe, router_world, router_saved};

    ghost kind = { router_kind };

    ghost safe = { router_safe };

    ghost saving = { router_saving };

    ghost laws = { router_world };

    ghost saved = { router_saved };

    fn handle(
        &mut self,
        now: u64,
        cause: &Cause<Load>,
        acts: &mut Acts<Load>,
    ) -> Result<(), AllocError> {
        self.react(now, cause, acts)
    }

    fn save(&self, out: &mut Writer) -> Result<(), AllocError> {
        self.save_state(out)
    }

    fn restore(&mut self, _alloc: Global, bytes: &mut Reader<'_>) -> Result<(), RestoreFault> {
        self.restore_state(bytes)
    }

    fn read_load(&self, bytes: &mut Reader<'_>) -> Result<Load, RestoreFault> {
        read_net_load(bytes)
    }

    fn fits(&self, at: u64) -> bool {
        self.is_sound(at)
    }

    fn fits_load(&self, cause: &Cause<Load>, at: u64) -> bool {
        self.may_come(cause, at)
    }

    fn is_primary(&self) -> bool {
        false
    }

    fn is_done(&self) -> bool {
        true
    }

    fn clock_on(&self, clock: u16) -> bool {
        self.ticks(clock)
    }

    fn channels(&self, port: u16) -> u16 {
        self.channels_of(port)
    }

    fn flow(&self, port: u16, channel: u8) -> Flow {
        self.flow_at(port, channel)
    }

    fn stats(&self) -> &StatSet {
        &self.stats
    }
}

impl Local for Router {
    ghost use Rattle.mr_router.specs.Kind.{router_allowed};
    ghost use Rattle.mr_router.specs.Kept.Lawful.{router_laws};
    ghost use Rattle.mr_router.specs.Laws.{router_saves};

    ghost allowed = { router_allowed };

    ghost local = { router_laws };

    ghost saves = { router_saves };

    ghost tied = { λ w now s. (λ h. h, λ h. h) };
}
