//! Meshes.

ghost use Rattle.std.specs.Prelude.{◌≡◌, ◌<◌, IfOk, false};
ghost use Rattle.mr_topo.specs.Routes.{flow_of, IsFlow, Delivers, LeadsBack};
ghost use Rattle.mr_topo.specs.Grid.{Grid, IsShape, mesh, hops_of};

use crate::grid;
use mr_flow::{Packet, Peer, ShapeFault};
use std::alloc::Global;
use std::marker::Model;

/// Routers in rows of one to four dimensions. Contracts see it as the sizes of the dimensions and the number of endpoints of a router.
#[derive(Drop)]
pub struct Mesh {
    sizes: Vec<u32>,
    local_ports: u32,
}

impl Model for Mesh {
    ghost use Rattle.mr_topo.specs.Grid.{Grid, IsGrid};

    ghost Value = { Grid };

    ghost view = { λ t. record { sizes = t.sizes.items; local_ports = t.local_ports } };

    ghost invariant = { λ t. IsGrid (record { sizes = t.sizes.items; local_ports = t.local_ports }) };
}

impl Mesh {
    /// The mesh of a shape's text, from one to four sizes joined by `x`, as `4x4`, each from 2 to 256. It is `Form` exactly where the text isn't of
    /// that form, or gives more than 65,536 routers or 4,096 endpoints, and `NoMemory` where no memory is left.
    pub fn read(alloc: Global, shape: &[u8], local_ports: u32) -> Result<Mesh, ShapeFault>
        ensures ok { IfOk result (λ t. IsShape t shape.now) }
        ensures local { IfOk result (λ t. t.local_ports ≡ local_ports) }
        ensures form { result ≡ Err ShapeFault.Form → (g : Grid) → g.local_ports ≡ local_ports → IsShape g shape.now → ⊥ }
    {
        let sizes = grid::sizes_in(alloc, shape, local_ports)?;
        Ok(Mesh { sizes, local_ports })
    }

    /// The output port of a packet at a router, and the channel on that port: towards the destination in the lowest dimension in which
    /// the router isn't in line with it, as in Merlin. It takes no memory.
    pub fn route(&self, router: u32, packet: &Packet) -> (u16, u8)
        requires router { router < (mesh self.now).routers }
        requires flow { IsFlow (mesh self.now) (flow_of packet.now) }
        ensures { result ≡ (mesh self.now).route router (flow_of packet.now) }
    {
        grid::route_at(&self.sizes, self.local_ports, false, router, packet)
    }

    /// Where a router's port leads: port `2d` up and port `2d + 1` down in dimension `d`, the ports behind them to endpoints. It is None
    /// exactly at an edge. It takes no memory.
    pub fn peer(&self, router: u32, port: u16) -> Option<Peer>
        requires router { router < (mesh self.now).routers }
        requires port { port < (mesh self.now).ports router }
        ensures { result ≡ (mesh self.now).peer router port }
    {
        grid::peer_at(&self.sizes, self.local_ports, false, router, port)
    }

    /// A law: each packet comes to its destination, with as many hops between routers as its coordinates differ, and ports lead back.
    #[tactic(auto, using(crate::proofs::Networks::grid_delivers, crate::proofs::Networks::grid_back))]
    pub fn laws(&self)
        ensures delivers { Delivers (mesh self.now) (hops_of false self.now) }
        ensures back { LeadsBack (mesh self.now) }
    {
        let _ = &self.local_ports;
    }

    /// The sizes of the dimensions.
    pub fn sizes(&self) -> &[u32]
        ensures { result.now ≡ self.now.sizes }
    {
        &self.sizes
    }

    /// How many endpoints a router has.
    pub fn local_ports(&self) -> u32
        ensures { result ≡ self.now.local_ports }
    {
        self.local_ports
    }

    /// How many routers there are.
    pub fn routers(&self) -> u32
        ensures { result ≡ (mesh self.now).routers }
    {
        grid::routers_in(&self.sizes)
    }

    /// How many endpoints there are.
    pub fn endpoints(&self) -> u32
        ensures { result ≡ (mesh self.now).endpoints }
    {
        grid::routers_in(&self.sizes) * self.local_ports
    }

    /// How many ports a router has.
    pub fn ports(&self, router: u32) -> u16
        requires { router < (mesh self.now).routers }
        ensures { result ≡ (mesh self.now).ports router }
    {
        grid::ports_in(&self.sizes, self.local_ports)
    }
}
