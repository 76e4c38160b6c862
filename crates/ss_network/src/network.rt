//! Whether the routers and endpoints of a graph are one network.

ghost use Rattle.std.specs.Prelude.{◌≡◌, ◌≤◌, ◌<◌, ◌+◌, ◌^◌, ◌&&◌, ◌++◌, not, ℕ, take, length, slice_get, slice_index_or, nat_lt, false, OnOk, IfNone, MatchOption, Some, None};
ghost use Rattle.std.specs.Option.{option_copied};
ghost use Rattle.ss_graph.specs.Checks.{Passes, first_fault};
ghost use Rattle.ss_network.specs.Faults.{is_memory, param_place};
ghost use Rattle.ss_network.specs.Params.{param_text};
ghost use Rattle.mr_router.specs.Network.{routes};
ghost use Rattle.ss_network.specs.Network.{first_router as first_of, capacity as capacity_of, least as least_of, router_ids, endpoint_ids, is_new as is_new_among, same_kind as same_kinds, same_sizes as are_same_sizes, same_levels as are_same_levels, same_shape as same_shapes, same_local as same_locals, same_checks, router_by, routers_checks, size_name as size_names, has_shape as has_shapes, fits_pattern as fits_patterns, fit_checks, endpoint_by, endpoints_checks, member_checks, network_checks};
ghost use Rattle.ss_network.specs.Marks.{AreMarked};

use crate::ask::{EndpointAsk, RouterAsk, Work};
use crate::fault::MakeFault;
use crate::links::{homes_fit, ports_fit};
use crate::member::Member;
use crate::param::{ParamName, place_of};
use mr_fattree::Level;
use mr_nic::Pattern;
use mr_router::Topology;
use ss_element::Wires;
use std::alloc::Global;

/// The first router of a graph's components.
pub fn first_router(members: &[Member]) -> Option<&RouterAsk>
    ensures { option_copied result ≡ first_of members.now }
{
    for member in members {
        if let Member::Router(router) = member {
            return Some(router);
        }
    }
    None
}

/// The lesser of a member's capacities, in flits.
fn capacity(member: &Member) -> u32
    ensures { result ≡ capacity_of member.now }
{
    match member {
        Member::Router(router) => router.input_flits.min(router.output_flits),
        Member::Endpoint(endpoint) => endpoint.input_flits.min(endpoint.output_flits),
        Member::Other => 1 << 20,
    }
}

/// The least capacity of a network, in flits, 2^20 at most.
#[tactic(auto, using(crate::proofs::Leasts::least_start, crate::proofs::Leasts::least_step))]
pub fn least(members: &[Member]) -> u32
    ensures { result ≡ least_of members.now }
{
    let mut flits = 1 << 20;
    for member in members {
        flits = flits.min(capacity(member));
    }
    flits
}

fn same_kind(first: &Topology, other: &Topology) -> bool
    ensures { result ≡ same_kinds first.now other.now }
{
    match (first, other) {
        (Topology::Single(_), Topology::Single(_)) => true,
        (Topology::Mesh(_), Topology::Mesh(_)) => true,
        (Topology::Torus(_), Topology::Torus(_)) => true,
        (Topology::FatTree(_), Topology::FatTree(_)) => true,
        _ => false,
    }
}

#[tactic(auto, using(crate::proofs::Sames::sizes_short, crate::proofs::Sames::sizes_step, crate::proofs::Sames::sizes_break, crate::proofs::Sames::sizes_end))]
fn same_sizes(first: &[u32], other: &[u32]) -> bool
    ensures { result ≡ are_same_sizes first.now other.now }
{
    if first.len() != other.len() {
        return false;
    }
    for k in 0..first.len() {
        if first[k] != other[k] {
            return false;
        }
    }
    true
}

#[tactic(auto, using(crate::proofs::Sames::levels_short, crate::proofs::Sames::levels_step, crate::proofs::Sames::levels_break, crate::proofs::Sames::levels_end))]
fn same_levels(first: &[Level], other: &[Level]) -> bool
    ensures { result ≡ are_same_levels first.now other.now }
{
    if first.len() != other.len() {
        return false;
    }
    for k in 0..first.len() {
        let level = first[k];
        let beside = other[k];
        if level.down != beside.down || level.up != beside.up {
            return false;
        }
    }
    true
}

fn same_shape(first: &Topology, other: &Topology) -> bool
    ensures { result ≡ same_shapes first.now other.now }
{
    match (first, other) {
        (Topology::Mesh(first), Topology::Mesh(other)) => same_sizes(first.sizes(), other.sizes()),
        (Topology::Torus(first), Topology::Torus(other)) => {
            same_sizes(first.sizes(), other.sizes())
        }
        (Topology::FatTree(first), Topology::FatTree(other)) => {
            same_levels(first.levels(), other.levels())
        }
        _ => true,
    }
}

fn same_local(first: &Topology, other: &Topology) -> bool
    ensures { result ≡ same_locals first.now other.now }
{
    match (first, other) {
        (Topology::Single(first), Topology::Single(other)) => {
            first.endpoints() == other.endpoints()
        }
        (Topology::Mesh(first), Topology::Mesh(other)) => {
            first.local_ports() == other.local_ports()
        }
        (Topology::Torus(first), Topology::Torus(other)) => {
            first.local_ports() == other.local_ports()
        }
        _ => true,
    }
}

/// Whether a number is below the marks' and not marked.
fn is_new(marks: &[bool], id: u32) -> bool
    ensures { result ≡ (nat_lt id (length marks.now) && not (slice_index_or marks.now id false)) }
{
    (id as usize) < marks.len() && !marks[id as usize]
}

/// The first parameter by which a router isn't as the first one, or isn't new.
#[tactic(auto, unfolding(ss_graph::specs::Checks::first_fault, crate::specs::Network::same_checks), using(crate::proofs::Marked::new_is))]
fn router_fault(
    first: &RouterAsk,
    members: &[Member],
    marks: &[bool],
    index: usize,
    router: &RouterAsk,
) -> Option<ParamName>
    requires marked { AreMarked (router_ids (take index members.now)) marks.now }
    requires size { length marks.now ≡ (routes first.now.topology).routers }
    ensures fault { MatchOption result (first_fault (same_checks first.now (router_ids (take index members.now)) index router.now) ≡ None) (λ n. first_fault (same_checks first.now (router_ids (take index members.now)) index router.now) ≡ Some (MakeFault.Param (param_place index (param_text n)))) }
    ensures inside { IfNone result (router.now.id < length marks.now) }
{
    let _ = members;
    if !same_kind(&first.topology, &router.topology) {
        Some(ParamName::Topology)
    } else if !same_shape(&first.topology, &router.topology) {
        Some(ParamName::Shape)
    } else if !same_local(&first.topology, &router.topology) {
        Some(ParamName::LocalPorts)
    } else if first.vns != router.vns {
        Some(ParamName::NumVns)
    } else if first.flit_bits != router.flit_bits {
        Some(ParamName::FlitSize)
    } else if !is_new(marks, router.id) {
        Some(ParamName::Id)
    } else {
        None
    }
}

/// Which parameter tells how large a message or a packet is.
fn size_name(work: Work) -> ParamName
    ensures { result ≡ size_names work }
{
    match work {
        Work::Messages { .. } => ParamName::MessageSize,
        Work::Packets { .. } => ParamName::PacketSize,
    }
}

/// Whether a pattern is there for so many endpoints: rows and columns can be exchanged where they are a square.
#[tactic(auto, using(mr_nic::proofs::Roots::root_is))]
fn has_shape(pattern: Pattern, endpoints: u32) -> bool
    ensures { result ≡ has_shapes pattern endpoints }
{
    match pattern {
        Pattern::Transpose => {
            let side = endpoints.isqrt();
            side * side == endpoints
        }
        Pattern::Uniform | Pattern::Complement | Pattern::Hotspot | Pattern::Tornado => true,
    }
}

fn fits_pattern(work: Work, endpoints: u32) -> bool
    ensures { result ≡ fits_patterns work endpoints }
{
    match work {
        Work::Messages { .. } => true,
        Work::Packets { pattern, .. } => has_shape(pattern, endpoints),
    }
}

/// The first parameter by which an endpoint doesn't fit the routers, or isn't new.
#[tactic(auto, unfolding(ss_graph::specs::Checks::first_fault, crate::specs::Network::fit_checks), using(crate::proofs::Marked::new_is))]
fn endpoint_fault(
    first: &RouterAsk,
    members: &[Member],
    marks: &[bool],
    most: u32,
    index: usize,
    endpoint: &EndpointAsk,
) -> Option<ParamName>
    requires marked { AreMarked (endpoint_ids (take index members.now)) marks.now }
    requires size { length marks.now ≡ (routes first.now.topology).endpoints }
    ensures fault { MatchOption result (first_fault (fit_checks first.now (endpoint_ids (take index members.now)) most index endpoint.now) ≡ None) (λ n. first_fault (fit_checks first.now (endpoint_ids (take index members.now)) most index endpoint.now) ≡ Some (MakeFault.Param (param_place index (param_text n)))) }
    ensures inside { IfNone result (endpoint.now.id < length marks.now) }
{
    let _ = members;
    if !is_new(marks, endpoint.id) {
        Some(ParamName::Id)
    } else if first.topology.endpoints() != endpoint.peers {
        Some(ParamName::NumPeers)
    } else if first.vns != endpoint.vns {
        Some(ParamName::NumVns)
    } else if first.flit_bits != endpoint.flit_bits {
        Some(ParamName::FlitSize)
    } else if endpoint.flits > most as u64 {
        Some(size_name(endpoint.work))
    } else if !fits_pattern(endpoint.work, first.topology.endpoints()) {
        Some(ParamName::Pattern)
    } else {
        None
    }
}

/// Takes component `index` in: if it is a router, it is as the first one, and its number is marked.
#[tactic(auto, unfolding(ss_graph::specs::Checks::first_fault), using(crate::proofs::Marked::router_marked, crate::proofs::Marked::router_kept))]
fn take_router(
    alloc: Global,
    first: &RouterAsk,
    members: &[Member],
    marks: &mut Vec<bool>,
    index: usize,
) -> Result<(), MakeFault>
    requires inside { index < length members.now }
    requires marked { AreMarked (router_ids (take index members.now)) marks.old.items }
    requires size { length marks.old.items ≡ (routes first.now.topology).routers }
    ensures passes { Passes is_memory result (router_by first.now (router_ids (take index members.now)) index (slice_get members.now index)) }
    ensures marked { OnOk result (AreMarked (router_ids (take (index + 1) members.now)) marks.new.items) }
    ensures size { length marks.new.items ≡ length marks.old.items }
{
    if let Member::Router(router) = &members[index] {
        if let Some(name) = router_fault(first, members, marks, index, router) {
            return Err(MakeFault::Param(place_of(alloc, index, name)?));
        }
        marks[router.id as usize] = true;
    }
    Ok(())
}

/// Takes component `index` in: if it is an endpoint, it fits the routers, and its number is marked.
#[tactic(auto, unfolding(ss_graph::specs::Checks::first_fault), using(crate::proofs::Marked::endpoint_marked, crate::proofs::Marked::endpoint_kept))]
fn take_endpoint(
    alloc: Global,
    first: &RouterAsk,
    members: &[Member],
    marks: &mut Vec<bool>,
    most: u32,
    index: usize,
) -> Result<(), MakeFault>
    requires inside { index < length members.now }
    requires marked { AreMarked (endpoint_ids (take index members.now)) marks.old.items }
    requires size { length marks.old.items ≡ (routes first.now.topology).endpoints }
    ensures passes { Passes is_memory result (endpoint_by first.now (endpoint_ids (take index members.now)) most index (slice_get members.now index)) }
    ensures marked { OnOk result (AreMarked (endpoint_ids (take (index + 1) members.now)) marks.new.items) }
    ensures size { length marks.new.items ≡ length marks.old.items }
{
    if let Member::Endpoint(endpoint) = &members[index] {
        if let Some(name) = endpoint_fault(first, members, marks, most, index, endpoint) {
            return Err(MakeFault::Param(place_of(alloc, index, name)?));
        }
        marks[endpoint.id as usize] = true;
    }
    Ok(())
}

/// Whether the routers are those of one topology.
fn routers_fit(alloc: Global, first: &RouterAsk, members: &[Member]) -> Result<(), MakeFault>
    ensures { Passes is_memory result (routers_checks first.now members.now) }
{
    let mut marks = Vec::from_elem(alloc, false, first.topology.routers() as usize)?;
    for index in 0..members.len() {
        take_router(alloc, first, members, &mut marks, index)?;
    }
    Ok(())
}

/// Whether the endpoints fit the routers.
fn endpoints_fit(alloc: Global, first: &RouterAsk, members: &[Member]) -> Result<(), MakeFault>
    ensures { Passes is_memory result (endpoints_checks first.now members.now) }
{
    let most = least(members);
    let mut marks = Vec::from_elem(alloc, false, first.topology.endpoints() as usize)?;
    for index in 0..members.len() {
        take_endpoint(alloc, first, members, &mut marks, most, index)?;
    }
    Ok(())
}

/// Whether routers and endpoints fit each other.
#[tactic(auto, using(ss_graph::proofs::Judging::first_fault_append), unfolding(ss_graph::specs::Checks::first_fault))]
fn members_fit(alloc: Global, members: &[Member]) -> Result<(), MakeFault>
    ensures { Passes is_memory result (member_checks (first_of members.now) members.now) }
{
    let Some(first) = first_router(members) else {
        return Ok(());
    };
    routers_fit(alloc, first, members)?;
    endpoints_fit(alloc, first, members)
}

/// Whether the routers and endpoints of a graph are one network, or the first check that fails. The checks in order: each router
/// is as the first one but for its number, which is one of the topology's and new; each endpoint's number is too, it knows the number of
/// endpoints, its messages fit the least queue, and its pattern is there for so many; each port of a router that leads somewhere is linked, and linked to its peer;
/// each endpoint is linked to its router. The checks and their order are this project's own.
#[tactic(auto, using(ss_graph::proofs::Judging::first_fault_append), unfolding(crate::specs::Network::network_checks))]
pub fn is_network(alloc: Global, members: &[Member], wires: &Wires) -> Result<(), MakeFault>
    requires { length members.now ≤ 2 ^ 16 }
    ensures { Passes is_memory result (network_checks wires.now members.now) }
{
    members_fit(alloc, members)?;
    ports_fit(alloc, members, wires)?;
    homes_fit(alloc, members, wires)
}
