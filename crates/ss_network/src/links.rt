//! Where the ports of a network lead, and whether they are linked so.

ghost use Rattle.std.specs.Prelude.{◌≡◌, ◌≤◌, ◌<◌, ◌+◌, ◌^◌, ◌∷◌, ◌++◌, [], ℕ, length, slice_get, Some, IfOk};
ghost use Rattle.ss_graph.specs.Checks.{Passes};
ghost use Rattle.ss_network.specs.Faults.{is_memory, port_place, rtr_place};
ghost use Rattle.mr_router.specs.Network.{routes};
ghost use Rattle.ss_network.specs.Network.{ports_of as number_of_ports, peer_of as where_to, end_of as other_end, is_router, is_endpoint, is_peer as peers, is_tied, is_wired, port_checks, ports_by, ports_checks, is_host, is_home_of, is_home as homes, home_by, home_check, homes_checks, below_checks};

use crate::ask::{EndpointAsk, RouterAsk};
use crate::fault::MakeFault;
use crate::member::Member;
use crate::place::item_place;
use itoa::Buffer;
use mr_flow::Peer;
use ss_element::Wires;
use ss_model::{ARRIVAL, Key};
use ss_units::Text;
use std::alloc::{AllocError, Global};

impl RouterAsk {
    /// The number of the router's ports. A router whose number isn't below that of the routers counts as the last one.
    pub fn ports(&self) -> u16
        ensures { result ≡ number_of_ports self.now }
    {
        let routers = self.topology.routers();
        if self.id < routers {
            return self.topology.ports(self.id);
        }
        match routers.checked_sub(1) {
            Some(last) => self.topology.ports(last),
            None => 0,
        }
    }

    /// Where a port leads; nowhere, if the topology has no such router or port.
    fn peer(&self, port: u16) -> Option<Peer>
        ensures { result ≡ where_to self.now port }
    {
        if self.id < self.topology.routers() && port < self.topology.ports(self.id) {
            self.topology.peer(self.id, port)
        } else {
            None
        }
    }
}

/// The component and the port at the other end of a port's line.
pub fn end_of(wires: &Wires, component: u32, port: u16) -> Option<(u32, u16)>
    ensures { result ≡ other_end wires.now component port }
{
    let (line, _) = wires.line_from(component, port)?;
    wires.target(Key {
        time: 0,
        class: ARRIVAL,
        line,
    })
}

fn is_router_at(members: &[Member], component: u32, id: u32) -> bool
    ensures { result ≡ is_router id (slice_get members.now component) }
{
    match members.get(component as usize) {
        Some(Member::Router(router)) => router.id == id,
        _ => false,
    }
}

fn is_endpoint_at(members: &[Member], component: u32, id: u32) -> bool
    ensures { result ≡ is_endpoint id (slice_get members.now component) }
{
    match members.get(component as usize) {
        Some(Member::Endpoint(endpoint)) => endpoint.id == id,
        _ => false,
    }
}

/// Whether an end is where the port of a topology leads.
fn is_peer(members: &[Member], peer: Peer, end: (u32, u16)) -> bool
    ensures { result ≡ peers members.now peer end }
{
    match peer {
        Peer::Router { id, port } => is_router_at(members, end.0, id) && end.1 == port,
        Peer::Host { id } => is_endpoint_at(members, end.0, id) && end.1 == 0,
    }
}

fn is_linked(peer: Option<Peer>, end: Option<(u32, u16)>) -> bool
    ensures { result ≡ is_tied peer end }
{
    peer.is_none() || end.is_some()
}

fn is_linked_well(members: &[Member], peer: Option<Peer>, end: Option<(u32, u16)>) -> bool
    ensures { result ≡ is_wired members.now peer end }
{
    match (peer, end) {
        (_, None) => true,
        (None, Some(_)) => false,
        (Some(peer), Some(end)) => is_peer(members, peer, end),
    }
}

/// The place of a router's port.
fn place_of_port(alloc: Global, index: usize, port: u16) -> Result<Text, AllocError>
    ensures { IfOk result (λ t. t ≡ port_place index port) }
{
    let mut digits = Buffer::new();
    let mut place = item_place(alloc, "components", index)?;
    place.push_str(".port")?;
    place.push_str(digits.format(port))?;
    Ok(Text::from_string(place))
}

/// The place of an endpoint's port.
fn place_of_rtr(alloc: Global, index: usize) -> Result<Text, AllocError>
    ensures { IfOk result (λ t. t ≡ rtr_place index) }
{
    let mut place = item_place(alloc, "components", index)?;
    place.push_str(".rtr")?;
    Ok(Text::from_string(place))
}

/// Whether a router's port is linked as its topology says.
#[tactic(auto, unfolding(ss_graph::specs::Checks::first_fault, crate::specs::Network::port_checks))]
fn port_fits(
    alloc: Global,
    members: &[Member],
    wires: &Wires,
    index: usize,
    router: &RouterAsk,
    port: u16,
) -> Result<(), MakeFault>
    requires { index < 2 ^ 32 }
    ensures { Passes is_memory result (port_checks wires.now members.now index router.now port) }
{
    let peer = router.peer(port);
    let end = end_of(wires, index as u32, port);
    if !is_linked(peer, end) {
        return Err(MakeFault::PortUnlinked(place_of_port(alloc, index, port)?));
    }
    if !is_linked_well(members, peer, end) {
        return Err(MakeFault::Miswired(place_of_port(alloc, index, port)?));
    }
    Ok(())
}

/// Whether a router's ports are linked as its topology says.
fn router_ports_fit(
    alloc: Global,
    members: &[Member],
    wires: &Wires,
    index: usize,
    router: &RouterAsk,
) -> Result<(), MakeFault>
    requires { index < 2 ^ 32 }
    ensures { Passes is_memory result (below_checks (number_of_ports router.now) (port_checks wires.now members.now index router.now)) }
{
    for port in 0..router.ports() {
        port_fits(alloc, members, wires, index, router, port)?;
    }
    Ok(())
}

/// Whether the ports of component `index` are linked as its topology says.
#[tactic(auto, unfolding(ss_graph::specs::Checks::first_fault))]
fn ports_fit_at(
    alloc: Global,
    members: &[Member],
    wires: &Wires,
    index: usize,
) -> Result<(), MakeFault>
    requires { index < 2 ^ 32 }
    ensures { Passes is_memory result (ports_by wires.now members.now index (slice_get members.now index)) }
{
    match members.get(index) {
        Some(Member::Router(router)) => router_ports_fit(alloc, members, wires, index, router),
        _ => Ok(()),
    }
}

/// Whether the routers' ports are linked as their topology says.
pub fn ports_fit(alloc: Global, members: &[Member], wires: &Wires) -> Result<(), MakeFault>
    requires { length members.now ≤ 2 ^ 16 }
    ensures { Passes is_memory result (ports_checks wires.now members.now) }
{
    for index in 0..members.len() {
        ports_fit_at(alloc, members, wires, index)?;
    }
    Ok(())
}

fn is_host_peer(peer: Option<Peer>, id: u32) -> bool
    ensures { result ≡ is_host id peer }
{
    match peer {
        Some(Peer::Host { id: host }) => host == id,
        _ => false,
    }
}

fn is_home_at(members: &[Member], id: u32, component: u32, port: u16) -> bool
    ensures { result ≡ is_home_of id (slice_get members.now component) port }
{
    match members.get(component as usize) {
        Some(Member::Router(router)) => is_host_peer(router.peer(port), id),
        _ => false,
    }
}

fn is_home(members: &[Member], id: u32, end: Option<(u32, u16)>) -> bool
    ensures { result ≡ homes members.now id end }
{
    match end {
        None => false,
        Some((component, port)) => is_home_at(members, id, component, port),
    }
}

/// Whether an endpoint is linked to its router's port.
#[tactic(auto, unfolding(ss_graph::specs::Checks::first_fault))]
fn endpoint_fits(
    alloc: Global,
    members: &[Member],
    wires: &Wires,
    index: usize,
    endpoint: &EndpointAsk,
) -> Result<(), MakeFault>
    requires { index < 2 ^ 32 }
    ensures { Passes is_memory result (home_check wires.now members.now index endpoint.now ∷ []) }
{
    if is_home(members, endpoint.id, end_of(wires, index as u32, 0)) {
        Ok(())
    } else {
        Err(MakeFault::Miswired(place_of_rtr(alloc, index)?))
    }
}

/// Whether component `index`, if it is an endpoint, is linked to its router's port.
#[tactic(auto, unfolding(ss_graph::specs::Checks::first_fault))]
fn home_fits_at(
    alloc: Global,
    members: &[Member],
    wires: &Wires,
    index: usize,
) -> Result<(), MakeFault>
    requires { index < 2 ^ 32 }
    ensures { Passes is_memory result (home_by wires.now members.now index (slice_get members.now index)) }
{
    match members.get(index) {
        Some(Member::Endpoint(endpoint)) => endpoint_fits(alloc, members, wires, index, endpoint),
        _ => Ok(()),
    }
}

/// Whether the endpoints are linked to their routers' ports.
pub fn homes_fit(alloc: Global, members: &[Member], wires: &Wires) -> Result<(), MakeFault>
    requires { length members.now ≤ 2 ^ 16 }
    ensures { Passes is_memory result (homes_checks wires.now members.now) }
{
    for index in 0..members.len() {
        home_fits_at(alloc, members, wires, index)?;
    }
    Ok(())
}
