//! The making of routers, and what endpoints are made from.

ghost use Rattle.std.specs.Prelude.{◌≡◌, ◌≤◌, ◌<◌, ◌^◌, IfOk, length};
ghost use Rattle.mr_router.specs.Network.{routes};
ghost use Rattle.mr_router.specs.Fresh.{room_of};
ghost use Rattle.ss_network.specs.Network.{ports_of, credits_of, least as least_of};
ghost use Rattle.ss_network.specs.Ranges.{IsFitRouter};
ghost use Rattle.ss_fresh.specs.Starting.{rooms_of, begun_router, nic_set};

use mr_link::NicSettings;
use mr_router::{Router, RouterSettings};
use ss_element::Wires;
use ss_network::{EndpointAsk, Member, RouterAsk, end_of};
use ss_stats::StatSet;
use ss_units::Text;
use std::alloc::{AllocError, Global};

// What the input queues at the other end of a port's line hold.
fn room(wires: &Wires, members: &[Member], component: u32, port: u16) -> Option<u32>
    ensures { result ≡ credits_of wires.now members.now component port }
{
    match end_of(wires, component, port) {
        None => None,
        Some((other, _)) => match members.get(other as usize) {
            None => None,
            Some(member) => Some(member.input_flits()),
        },
    }
}

// The same of each of so many ports.
fn rooms(
    alloc: Global,
    wires: &Wires,
    members: &[Member],
    component: u32,
    router: &RouterAsk,
) -> Result<Vec<Option<u32>>, AllocError>
    ensures read { IfOk result (λ v. v.items ≡ rooms_of wires.now members.now component router.now) }
    ensures count { IfOk result (λ v. length v.items ≡ ports_of router.now) }
{
    let mut rooms = Vec::with_capacity(alloc, usize::from(router.ports()))?;
    for port in 0..router.ports() {
        rooms.push(room(wires, members, component, port))?;
    }
    Ok(rooms)
}

/// The router that a component asks for, on which nothing happened yet: of each port it has the credits that the queue at the other end
/// holds. `most` is the least capacity of the network. It fails only where no
/// memory is left.
pub fn router_from(
    alloc: Global,
    wires: &Wires,
    members: &[Member],
    component: u32,
    router: RouterAsk,
    most: u32,
    stats: StatSet,
) -> Result<Router, AllocError>
    requires fit { IsFitRouter router }
    requires few { ports_of router ≤ 256 }
    requires id { router.id < (routes router.topology).routers }
    requires most { most ≡ least_of members.now }
    ensures { IfOk result (λ r. r ≡ begun_router wires.now members.now component router stats) }
{
    let rooms = rooms(alloc, wires, members, component, &router)?;
    let endpoints = router.topology.endpoints();
    let set = RouterSettings {
        id: router.id,
        topology: router.topology,
        vns: router.vns,
        flit_time: router.flit_time,
        period: router.period,
        input_flits: router.input_flits,
        output_flits: router.output_flits,
        arb: router.arb,
        endpoints,
        least: most,
    };
    Router::new(alloc, set, rooms.as_slice(), stats)
}

/// What the endpoint that a component asks for is made from, with the credits that its router's queue holds. `most` is the
/// least capacity of the network. It takes no memory.
pub fn nic_settings(
    wires: &Wires,
    members: &[Member],
    component: u32,
    name: Text,
    endpoint: &EndpointAsk,
    most: u32,
) -> NicSettings
    requires { most ≡ least_of members.now }
    ensures { result ≡ nic_set wires.now members.now component name endpoint.now }
{
    NicSettings {
        name,
        id: endpoint.id,
        peers: endpoint.peers,
        vns: endpoint.vns,
        flit_time: endpoint.flit_time,
        input_flits: endpoint.input_flits,
        output_flits: endpoint.output_flits,
        credits: room(wires, members, component, 0).unwrap_or(0),
        least: most,
    }
}
