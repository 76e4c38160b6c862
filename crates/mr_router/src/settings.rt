//! What is fixed of a router when it is made.

ghost use Rattle.std.specs.Prelude.{◌≡◌, ◌<◌, ◌*◌, ◌^◌};
ghost use Rattle.std.specs.Prelude.{◌/◌, ◌≤◌};
ghost use Rattle.mr_router.specs.Network.{routes, leads};
ghost use Rattle.mr_router.specs.Router.{width};
ghost use Rattle.mr_router.specs.Fitting.{lanes, bounds_of, peer_of};

use crate::topology::Topology;
use mr_arb::ArbKind;
use mr_flow::{Bounds, Peer};

/// What is fixed of a router when it is made. Times are in picoseconds, sizes in flits.
#[derive(Drop)]
pub struct RouterSettings {
    /// Its number in the topology.
    pub id: u32,
    pub topology: Topology,
    /// How many virtual networks there are.
    pub vns: u8,
    /// How long a flit takes on a line.
    pub flit_time: u64,
    /// How long a flit takes through the crossbar, which is the period of the router's clock.
    pub period: u64,
    /// What an input queue can hold.
    pub input_flits: u32,
    /// What an output queue can hold.
    pub output_flits: u32,
    /// How an output chooses among the packets that ask for it.
    pub arb: ArbKind,
    /// How many endpoints the network has.
    pub endpoints: u32,
    /// The least capacity of the network's queues, and so the most flits of a packet.
    pub least: u32,
}

impl RouterSettings {
    // How many slots the numbering counts for a port.
    pub(crate) fn width(&self) -> u32
        ensures { result ≡ width self.now }
    {
        u32::from(self.vns) * u32::from(self.topology.channels())
    }

    // The packets of the network.
    pub(crate) fn bounds(&self) -> Bounds
        ensures { result ≡ bounds_of self.now }
    {
        Bounds {
            endpoints: self.endpoints,
            vns: self.vns,
            least: self.least,
        }
    }

    // Whether a port leads somewhere.
    pub(crate) fn leads(&self, port: u16) -> bool
        requires id { self.now.id < (routes self.now.topology).routers }
        requires port { port < (routes self.now.topology).ports self.now.id }
        ensures { result ≡ leads (peer_of self.now port) }
    {
        match self.topology.peer(self.id, port) {
            Some(_) => true,
            None => false,
        }
    }

    // How many channels of a virtual network a port has.
    #[tactic(auto, using(crate::specs::Kept::Sizes::some_lanes))]
    fn lanes(&self, port: u16) -> u8
        requires id { self.now.id < (routes self.now.topology).routers }
        requires port { port < (routes self.now.topology).ports self.now.id }
        ensures lanes { result ≡ lanes self.now port }
        ensures some { 1 ≤ result }
    {
        match self.topology.peer(self.id, port) {
            Some(Peer::Router { .. }) => self.topology.channels(),
            Some(Peer::Host { .. }) | None => 1,
        }
    }

    // How many channels a port has.
    pub(crate) fn channels(&self, port: u16) -> u16
        requires id { self.now.id < (routes self.now.topology).routers }
        requires port { port < (routes self.now.topology).ports self.now.id }
        ensures { result ≡ self.now.vns * lanes self.now port }
    {
        u16::from(self.vns) * u16::from(self.lanes(port))
    }

    // The virtual network of a port's channel.
    pub(crate) fn network(&self, port: u16, channel: u8) -> u8
        requires id { self.now.id < (routes self.now.topology).routers }
        requires port { port < (routes self.now.topology).ports self.now.id }
        ensures { result ≡ channel / lanes self.now port }
    {
        channel / self.lanes(port)
    }
}
