//! A generator of traffic.

ghost use Rattle.std.specs.Prelude.{◌≡◌, ◌≤◌, ◌<◌, ◌*◌, ◌^◌, IfOk};
ghost use Rattle.mr_nic.specs.Endpoint.{packets_to_send, traffic_gen};
ghost use Rattle.mr_nic.specs.Pattern.{IsFor};

use crate::nic::{Endpoint, Source};
use crate::numbers::Numbers;
use crate::pattern::{Pattern, destination};
use crate::station::Station;
use mr_flow::{Load, read_net_load};
use mr_link::NicSettings;
use ss_element::{Acts, Element, Flow, RestoreFault};
use ss_model::Cause;
use ss_safe::Local;
use ss_stats::StatSet;
use ss_wire::{Reader, Writer};
use std::alloc::{AllocError, Global};
use std::marker::Model;

/// After Merlin's traffic generator: it sends packets by a pattern, and counts what it receives. It has the port 0 and the clock 0.
/// Contracts see what every endpoint is.
#[derive(Drop)]
pub struct TrafficGen {
    nic: Station,
}

impl Model for TrafficGen {
    ghost use Rattle.mr_nic.specs.declared.nic.Endpoint.{Endpoint};

    ghost Value = { Endpoint };

    ghost view = { λ t. t.nic };
}

impl TrafficGen {
    // How many packets it sends: none where they would go to itself.
    fn packets_to_send(
        pattern: Pattern,
        set: &NicSettings,
        packets: u32,
        seed: u64,
        hot: u32,
    ) -> u32
        requires some { 2 ≤ set.now.peers }
        requires here { set.now.id < set.now.peers }
        requires there { hot < set.now.peers }
        requires shape { IsFor pattern set.now.peers }
        ensures { result ≡ packets_to_send pattern set.now packets seed hot }
    {
        let to = destination(pattern, set.id, set.peers, 0, seed, hot);
        if to == set.id { 0 } else { packets }
    }

    /// A generator of so many packets of so many flits on a virtual network, or of none where its pattern names itself. It fails only
    /// where no memory is left.
    pub fn new(
        alloc: Global,
        set: NicSettings,
        pattern: Pattern,
        packets: u32,
        flits: u32,
        vn: u8,
        seed: u64,
        hot: u32,
        stats: StatSet,
    ) -> Result<TrafficGen, AllocError>
        requires peers { 2 ≤ set.peers }
        requires here { set.id < set.peers }
        requires there { hot < set.peers }
        requires shape { IsFor pattern set.peers }
        requires input { set.input_flits * set.flit_time ≤ 2 ^ 40 }
        requires output { set.output_flits * set.flit_time ≤ 2 ^ 40 }
        ensures { IfOk result (λ n. n ≡ traffic_gen set pattern packets flits vn seed hot stats) }
    {
        let total = u64::from(TrafficGen::packets_to_send(pattern, &set, packets, seed, hot));
        let next = Numbers::zeros(alloc, set.peers as usize)?;
        let from = Source::Traffic {
            pattern,
            vn,
            seed,
            hot,
        };
        let endpoint = Endpoint::new(alloc, set, total, flits, from, next, stats)?;
        let nic = Station::new(endpoint);
        Ok(TrafficGen { nic })
    }
}

impl Element for TrafficGen {
    type Load = Load;

    ghost use Rattle.mr_nic.specs.Saved.{endpoint_saving};
    ghost use Rattle.mr_nic.specs.Kind.{endpoint_kind};
    ghost use Rattle.mr_nic.specs.Laws.{endpoint_safe, endpoint_world, endpoint_saved};

    ghost kind = { endpoint_kind };

    ghost safe = { endpoint_safe };

    ghost saving = { endpoint_saving };

    ghost laws = { endpoint_world };

    ghost saved = { endpoint_saved };

    fn handle(
        &mut self,
        now: u64,
        cause: &Cause<Load>,
        acts: &mut Acts<Load>,
    ) -> Result<(), AllocError> {
        self.nic.handle(now, cause, acts)
    }

    fn save(&self, out: &mut Writer) -> Result<(), AllocError> {
        self.nic.endpoint().save(out)
    }

    fn restore(&mut self, _alloc: Global, bytes: &mut Reader<'_>) -> Result<(), RestoreFault> {
        self.nic.restore(bytes)
    }

    fn read_load(&self, bytes: &mut Reader<'_>) -> Result<Load, RestoreFault> {
        read_net_load(bytes)
    }

    fn fits(&self, at: u64) -> bool {
        self.nic.endpoint().fits(at)
    }

    fn fits_load(&self, cause: &Cause<Load>, at: u64) -> bool {
        self.nic.endpoint().fits_load(cause, at)
    }

    fn is_primary(&self) -> bool {
        true
    }

    fn is_done(&self) -> bool {
        self.nic.endpoint().is_done()
    }

    fn clock_on(&self, clock: u16) -> bool {
        self.nic.endpoint().clock_on(clock)
    }

    fn channels(&self, port: u16) -> u16 {
        self.nic.endpoint().channels(port)
    }

    fn flow(&self, port: u16, channel: u8) -> Flow {
        self.nic.endpoint().flow(port, channel)
    }

    fn stats(&self) -> &StatSet {
        self.nic.endpoint().stats()
    }
}

impl Local for TrafficGen {
    ghost use Rattle.mr_nic.specs.Kind.{endpoint_allowed};
    ghost use Rattle.mr_nic.specs.Laws.{endpoint_laws, endpoint_saves};

    ghost allowed = { endpoint_allowed };

    ghost local = { endpoint_laws };

    ghost saves = { endpoint_saves };

    ghost tied = { λ w now s. (λ h. h, λ h. h) };
}
