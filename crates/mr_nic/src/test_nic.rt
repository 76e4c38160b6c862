//! An endpoint that sends messages to all others.

ghost use Rattle.std.specs.Prelude.{◌≡◌, ◌≤◌, ◌<◌, ◌*◌, ◌^◌, IfOk};
ghost use Rattle.mr_nic.specs.Endpoint.{test_nic};

use crate::nic::{Endpoint, Source};
use crate::numbers::Numbers;
use crate::station::Station;
use mr_flow::{Load, read_net_load};
use mr_link::NicSettings;
use ss_element::{Acts, Element, Flow, RestoreFault};
use ss_model::Cause;
use ss_safe::Local;
use ss_stats::StatSet;
use ss_wire::{Reader, Writer};
use std::alloc::{AllocError, Global};
use std::marker::Model;

/// After Merlin's test endpoint: it sends as many messages to each of the others, one packet each, and counts what it receives. It has
/// the port 0 and the clock 0. Contracts see what every endpoint is.
#[derive(Drop)]
pub struct TestNic {
    nic: Station,
}

impl Model for TestNic {
    ghost use Rattle.mr_nic.specs.declared.nic.Endpoint.{Endpoint};

    ghost Value = { Endpoint };

    ghost view = { λ t. t.nic };
}

impl TestNic {
    /// An endpoint that sends so many messages of so many flits to each of the others, and prints when it is done if it is verbose.
    /// It fails only where no memory is left.
    pub fn new(
        alloc: Global,
        set: NicSettings,
        messages: u32,
        flits: u32,
        verbose: bool,
        stats: StatSet,
    ) -> Result<TestNic, AllocError>
        requires peers { 2 ≤ set.peers }
        requires input { set.input_flits * set.flit_time ≤ 2 ^ 40 }
        requires output { set.output_flits * set.flit_time ≤ 2 ^ 40 }
        ensures { IfOk result (λ n. n ≡ test_nic set messages flits verbose stats) }
    {
        let total = u64::from(set.peers - 1) * u64::from(messages);
        let next = Numbers::zeros(alloc, 0)?;
        let from = Source::Test { verbose };
        let endpoint = Endpoint::new(alloc, set, total, flits, from, next, stats)?;
        let nic = Station::new(endpoint);
        Ok(TestNic { nic })
    }
}

impl Element for TestNic {
    type Load = Load;

    ghost use Rattle.mr_nic.specs.Saved.{endpoint_saving};
    ghost use Rattle.mr_nic.specs.Kind.{endpoint_kind};
    ghost use Rattle.mr_nic.specs.Laws.{endpoint_safe, endpoint_world, endpoint_saved};

    ghost kind = { endpoint_kind };

    ghost safe = { endpoint_safe };

    ghost saving = { endpoint_saving };

    ghost laws = { endpoint_world };

    ghost saved = { endpoint_saved };

    fn handle(
        &mut self,
        now: u64,
        cause: &Cause<Load>,
        acts: &mut Acts<Load>,
    ) -> Result<(), AllocError> {
        self.nic.handle(now, cause, acts)
    }

    fn save(&self, out: &mut Writer) -> Result<(), AllocError> {
        self.nic.endpoint().save(out)
    }

    fn restore(&mut self, _alloc: Global, bytes: &mut Reader<'_>) -> Result<(), RestoreFault> {
        self.nic.restore(bytes)
    }

    fn read_load(&self, bytes: &mut Reader<'_>) -> Result<Load, RestoreFault> {
        read_net_load(bytes)
    }

    fn fits(&self, at: u64) -> bool {
        self.nic.endpoint().fits(at)
    }

    fn fits_load(&self, cause: &Cause<Load>, at: u64) -> bool {
        self.nic.endpoint().fits_load(cause, at)
    }

    fn is_primary(&self) -> bool {
        true
    }

    fn is_done(&self) -> bool {
        self.nic.endpoint().is_done()
    }

    fn clock_on(&self, clock: u16) -> bool {
        self.nic.endpoint().clock_on(clock)
    }

    fn channels(&self, port: u16) -> u16 {
        self.nic.endpoint().channels(port)
    }

    fn flow(&self, port: u16, channel: u8) -> Flow {
        self.nic.endpoint().flow(port, channel)
    }

    fn stats(&self) -> &StatSet {
        self.nic.endpoint().stats()
    }
}

impl Local for TestNic {
    ghost use Rattle.mr_nic.specs.Kind.{endpoint_allowed};
    ghost use Rattle.mr_nic.specs.Laws.{endpoint_laws, endpoint_saves};

    ghost allowed = { endpoint_allowed };

    ghost local = { endpoint_laws };

    ghost saves = { endpoint_saves };

    ghost tied = { λ w now s. (λ h. h, λ h. h) };
}
