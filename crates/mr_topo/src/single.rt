//! One router.

ghost use Rattle.std.specs.Prelude.{◌≡◌, ◌<◌, ◌≤◌, Some};
ghost use Rattle.mr_topo.specs.Routes.{flow_of, IsFlow, Delivers, LeadsBack};
ghost use Rattle.mr_topo.specs.Single.{single};

use mr_flow::{Packet, Peer};
use std::marker::Model;

/// One router whose ports lead to endpoints of the same numbers. Contracts see it as the number of its ports.
#[derive(Clone, Copy, Debug)]
pub struct Single {
    local_ports: u32,
}

impl Model for Single {
    ghost use Rattle.std.specs.Prelude.{ℕ, ◌≤◌};

    ghost Value = { ℕ };

    ghost view = { λ t. t.local_ports };

    ghost invariant = { λ t. t.local_ports ≤ 255 };

    ghost inverse = { λ n. record { local_ports = n } };
}

impl Single {
    /// The router with this many ports, from 1 to 255. It takes no memory.
    pub fn new(local_ports: u32) -> Single
        requires some { 1 ≤ local_ports }
        requires few { local_ports ≤ 255 }
        ensures { result ≡ local_ports }
    {
        Single { local_ports }
    }

    /// How many routers there are.
    pub fn routers(&self) -> u32
        ensures { result ≡ (single self.now).routers }
    {
        1
    }

    /// How many endpoints there are.
    pub fn endpoints(&self) -> u32
        ensures { result ≡ (single self.now).endpoints }
    {
        self.local_ports
    }

    /// How many ports a router has.
    pub fn ports(&self, router: u32) -> u16
        requires { router < (single self.now).routers }
        ensures { result ≡ (single self.now).ports router }
    {
        self.local_ports as u16
    }

    /// The output port of a packet at a router, and the channel on that port. It takes no memory.
    pub fn route(&self, router: u32, packet: &Packet) -> (u16, u8)
        requires router { router < (single self.now).routers }
        requires flow { IsFlow (single self.now) (flow_of packet.now) }
        ensures { result ≡ (single self.now).route router (flow_of packet.now) }
    {
        let _ = &self.local_ports;
        (packet.dst as u16, packet.vn)
    }

    /// Where a router's port leads. It takes no memory.
    pub fn peer(&self, router: u32, port: u16) -> Option<Peer>
        requires router { router < (single self.now).routers }
        requires port { port < (single self.now).ports router }
        ensures { result ≡ (single self.now).peer router port }
    {
        Some(Peer::Host { id: port as u32 })
    }

    #[tactic(auto, using(crate::proofs::Networks::single_back))]
    /// A law: each packet comes to its destination with no hop between routers, and no port leads to a router.
    pub fn laws(&self)
        ensures delivers { Delivers (single self.now) (λ r e. 0) }
        ensures back { LeadsBack (single self.now) }
    {}
}
