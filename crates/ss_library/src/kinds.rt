//! An element of one of the kinds.

use crate::housed::Housed;
use mr_flow::Load;
use mr_nic::{TestNic, TrafficGen};
use mr_router::Router;
use ss_element::{Acts, Element, Flow, RestoreFault};
use ss_kinds::{Echo, Pinger, Ticker};
use ss_model::Cause;
use ss_safe::Local;
use ss_stats::StatSet;
use ss_wire::{Reader, Writer};
use std::alloc::{AllocError, Global};

/// An element of one of the kinds.
#[derive(Drop)]
pub enum Any {
    Pinger(Pinger),
    Echo(Echo),
    Ticker(Ticker),
    TestNic(Housed<TestNic>),
    TrafficGen(Housed<TrafficGen>),
    Router(Housed<Router>),
}

impl Element for Any {
    type Load = Load;

    ghost use Rattle.ss_library.specs.Kinds.{any_kind, any_safe};
    ghost use Rattle.ss_library.specs.Saved.{any_saving};
    ghost use Rattle.ss_library.specs.Laws.{any_world, any_saved};

    ghost kind = { any_kind };

    ghost safe = { any_safe };

    ghost saving = { any_saving };

    ghost laws = { any_world };

    ghost saved = { any_saved };

    fn handle(
        &mut self,
        now: u64,
        cause: &Cause<Load>,
        acts: &mut Acts<Load>,
    ) -> Result<(), AllocError> {
        match self {
            Any::Pinger(pinger) => pinger.handle(now, cause, acts),
            Any::Echo(echo) => echo.handle(now, cause, acts),
            Any::Ticker(ticker) => ticker.handle(now, cause, acts),
            Any::TestNic(nic) => nic.get_mut().handle(now, cause, acts),
            Any::TrafficGen(traffic) => traffic.get_mut().handle(now, cause, acts),
            Any::Router(router) => router.get_mut().handle(now, cause, acts),
        }
    }

    fn save(&self, out: &mut Writer) -> Result<(), AllocError> {
        match self {
            Any::Pinger(pinger) => pinger.save(out),
            Any::Echo(echo) => echo.save(out),
            Any::Ticker(ticker) => ticker.save(out),
            Any::TestNic(nic) => nic.get().save(out),
            Any::TrafficGen(traffic) => traffic.get().save(out),
            Any::Router(router) => router.get().save(out),
        }
    }

    #[tactic(auto, using(ss_kinds::proofs::Restored::read_is_given))]
    fn restore(&mut self, alloc: Global, bytes: &mut Reader<'_>) -> Result<(), RestoreFault> {
        match self {
            Any::Pinger(pinger) => pinger.restore(alloc, bytes),
            Any::Echo(echo) => echo.restore(alloc, bytes),
            Any::Ticker(ticker) => ticker.restore(alloc, bytes),
            Any::TestNic(nic) => nic.get_mut().restore(alloc, bytes),
            Any::TrafficGen(traffic) => traffic.get_mut().restore(alloc, bytes),
            Any::Router(router) => router.get_mut().restore(alloc, bytes),
        }
    }

    fn read_load(&self, bytes: &mut Reader<'_>) -> Result<Load, RestoreFault> {
        match self {
            Any::Pinger(pinger) => pinger.read_load(bytes),
            Any::Echo(echo) => echo.read_load(bytes),
            Any::Ticker(ticker) => ticker.read_load(bytes),
            Any::TestNic(nic) => nic.get().read_load(bytes),
            Any::TrafficGen(traffic) => traffic.get().read_load(bytes),
            Any::Router(router) => router.get().read_load(bytes),
        }
    }

    fn fits(&self, at: u64) -> bool {
        match self {
            Any::Pinger(pinger) => pinger.fits(at),
            Any::Echo(echo) => echo.fits(at),
            Any::Ticker(ticker) => ticker.fits(at),
            Any::TestNic(nic) => nic.get().fits(at),
            Any::TrafficGen(traffic) => traffic.get().fits(at),
            Any::Router(router) => router.get().fits(at),
        }
    }

    fn fits_load(&self, cause: &Cause<Load>, at: u64) -> bool {
        match self {
            Any::Pinger(pinger) => pinger.fits_load(cause, at),
            Any::Echo(echo) => echo.fits_load(cause, at),
            Any::Ticker(ticker) => ticker.fits_load(cause, at),
            Any::TestNic(nic) => nic.get().fits_load(cause, at),
            Any::TrafficGen(traffic) => traffic.get().fits_load(cause, at),
            Any::Router(router) => router.get().fits_load(cause, at),
        }
    }

    fn is_primary(&self) -> bool {
        match self {
            Any::Pinger(pinger) => pinger.is_primary(),
            Any::Echo(echo) => echo.is_primary(),
            Any::Ticker(ticker) => ticker.is_primary(),
            Any::TestNic(nic) => nic.get().is_primary(),
            Any::TrafficGen(traffic) => traffic.get().is_primary(),
            Any::Router(router) => router.get().is_primary(),
        }
    }

    fn is_done(&self) -> bool {
        match self {
            Any::Pinger(pinger) => pinger.is_done(),
            Any::Echo(echo) => echo.is_done(),
            Any::Ticker(ticker) => ticker.is_done(),
            Any::TestNic(nic) => nic.get().is_done(),
            Any::TrafficGen(traffic) => traffic.get().is_done(),
            Any::Router(router) => router.get().is_done(),
        }
    }

    fn clock_on(&self, clock: u16) -> bool {
        match self {
            Any::Pinger(pinger) => pinger.clock_on(clock),
            Any::Echo(echo) => echo.clock_on(clock),
            Any::Ticker(ticker) => ticker.clock_on(clock),
            Any::TestNic(nic) => nic.get().clock_on(clock),
            Any::TrafficGen(traffic) => traffic.get().clock_on(clock),
            Any::Router(router) => router.get().clock_on(clock),
        }
    }

    fn channels(&self, port: u16) -> u16 {
        match self {
            Any::Pinger(pinger) => pinger.channels(port),
            Any::Echo(echo) => echo.channels(port),
            Any::Ticker(ticker) => ticker.channels(port),
            Any::TestNic(nic) => nic.get().channels(port),
            Any::TrafficGen(traffic) => traffic.get().channels(port),
            Any::Router(router) => router.get().channels(port),
        }
    }

    fn flow(&self, port: u16, channel: u8) -> Flow {
        match self {
            Any::Pinger(pinger) => pinger.flow(port, channel),
            Any::Echo(echo) => echo.flow(port, channel),
            Any::Ticker(ticker) => ticker.flow(port, channel),
            Any::TestNic(nic) => nic.get().flow(port, channel),
            Any::TrafficGen(traffic) => traffic.get().flow(port, channel),
            Any::Router(router) => router.get().flow(port, channel),
        }
    }

    fn stats(&self) -> &StatSet {
        match self {
            Any::Pinger(pinger) => pinger.stats(),
            Any::Echo(echo) => echo.stats(),
            Any::Ticker(ticker) => ticker.stats(),
            Any::TestNic(nic) => nic.get().stats(),
            Any::TrafficGen(traffic) => traffic.get().stats(),
            Any::Router(router) => router.get().stats(),
        }
    }
}

impl Local for Any {
    ghost use Rattle.ss_library.specs.Kinds.{any_allowed};
    ghost use Rattle.ss_library.specs.Laws.{any_laws, any_saves};

    ghost allowed = { any_allowed };

    ghost local = { any_laws };

    ghost saves = { any_saves };

    ghost tied = { λ w now s. (λ safe. safe, λ safe. safe) };
}
