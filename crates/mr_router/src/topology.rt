//! The topologies, as one type.

ghost use Rattle.std.specs.Prelude.{◌≡◌, ◌<◌};
ghost use Rattle.mr_topo.specs.Routes.{flow_of, IsFlow, Delivers, LeadsBack};
ghost use Rattle.mr_router.specs.Network.{routes, hops};

use mr_fattree::FatTree;
use mr_flow::{Packet, Peer};
use mr_topo::{Mesh, Single, Torus};

/// A topology after Merlin's.
#[derive(Drop)]
pub enum Topology {
    /// One router with all endpoints.
    Single(Single),
    /// Routers in rows of one to four dimensions.
    Mesh(Mesh),
    /// Routers in rings of one to four dimensions.
    Torus(Torus),
    /// Levels of routers above the endpoints.
    FatTree(FatTree),
}

impl Topology {
    /// The output port of a packet at a router, and the channel on that port. It takes no memory.
    pub fn route(&self, router: u32, packet: &Packet) -> (u16, u8)
        requires router { router < (routes self.now).routers }
        requires flow { IsFlow (routes self.now) (flow_of packet.now) }
        ensures { result ≡ (routes self.now).route router (flow_of packet.now) }
    {
        match self {
            Topology::Single(single) => single.route(router, packet),
            Topology::Mesh(mesh) => mesh.route(router, packet),
            Topology::Torus(torus) => torus.route(router, packet),
            Topology::FatTree(tree) => tree.route(router, packet),
        }
    }

    /// Where a router's port leads. It is `None` exactly where it leads nowhere, as at a mesh's edge. It takes no memory.
    pub fn peer(&self, router: u32, port: u16) -> Option<Peer>
        requires router { router < (routes self.now).routers }
        requires port { port < (routes self.now).ports router }
        ensures { result ≡ (routes self.now).peer router port }
    {
        match self {
            Topology::Single(single) => single.peer(router, port),
            Topology::Mesh(mesh) => mesh.peer(router, port),
            Topology::Torus(torus) => torus.peer(router, port),
            Topology::FatTree(tree) => tree.peer(router, port),
        }
    }

    /// How many routers there are.
    pub fn routers(&self) -> u32
        ensures { result ≡ (routes self.now).routers }
    {
        match self {
            Topology::Single(_) => 1,
            Topology::Mesh(mesh) => mesh.routers(),
            Topology::Torus(torus) => torus.routers(),
            Topology::FatTree(tree) => tree.routers(),
        }
    }

    /// How many endpoints there are.
    pub fn endpoints(&self) -> u32
        ensures { result ≡ (routes self.now).endpoints }
    {
        match self {
            Topology::Single(single) => single.endpoints(),
            Topology::Mesh(mesh) => mesh.endpoints(),
            Topology::Torus(torus) => torus.endpoints(),
            Topology::FatTree(tree) => tree.endpoints(),
        }
    }

    /// How many ports a router has.
    pub fn ports(&self, router: u32) -> u16
        requires { router < (routes self.now).routers }
        ensures { result ≡ (routes self.now).ports router }
    {
        match self {
            Topology::Single(single) => single.ports(router),
            Topology::Mesh(mesh) => mesh.ports(router),
            Topology::Torus(torus) => torus.ports(router),
            Topology::FatTree(tree) => tree.ports(router),
        }
    }

    /// How many virtual channels a virtual network has between routers: two on a torus, one elsewhere.
    pub fn channels(&self) -> u8
        ensures { result ≡ (routes self.now).channels }
    {
        match self {
            Topology::Torus(_) => 2,
            Topology::Single(_) | Topology::Mesh(_) | Topology::FatTree(_) => 1,
        }
    }

    /// A law: each packet comes to its destination, after as many hops as the topology says, and ports lead back.
    pub fn laws(&self)
        ensures delivers { Delivers (routes self.now) (hops self.now) }
        ensures back { LeadsBack (routes self.now) }
    {
        match self {
            Topology::Single(single) => single.laws(),
            Topology::Mesh(mesh) => mesh.laws(),
            Topology::Torus(torus) => torus.laws(),
            Topology::FatTree(tree) => tree.laws(),
        }
    }
}
