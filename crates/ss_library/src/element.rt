//! What a graph's components are in a network, and their elements, which are made when the wires are known.

ghost use Rattle.std.specs.Prelude.{◌≡◌, ◌++◌, ◌∷◌, [], ◌≤◌, ◌<◌, ◌^◌, map, length, slice_get, Some, IfOk, true, codes};
ghost use Rattle.ss_graph.specs.Checks.{Judged, at};
ghost use Rattle.mr_nic.specs.Kind.{NicFits};
ghost use Rattle.ss_network.specs.Faults.{is_memory};
ghost use Rattle.ss_network.specs.Asks.{router_of, endpoint_of, generator_of};
ghost use Rattle.ss_network.specs.Joined.{IsNetwork};
ghost use Rattle.ss_network.specs.Network.{least as least_of, fits_pattern};
ghost use Rattle.ss_network.specs.Ranges.{IsFitWork};
ghost use Rattle.ss_fresh.specs.Starting.{nic_by, begun_nic};
ghost use Rattle.ss_fresh.specs.Tied.{AllCanRun};
ghost use Rattle.ss_network.specs.declared.member.Member.TheVariants as member;
ghost use Rattle.ss_library.specs.declared.table.KindName.TheVariants as kind;
ghost use Rattle.ss_library.specs.Stats.{empty_stats};
ghost use Rattle.ss_library.specs.Make.{rows_by, stats_by, rest_by, component_checks, components_checks, pinger_of, echo_of, ticker_of, member_of, any_nic, begun_by, begun, begun_from};

use crate::housed::Housed;
use crate::kinds::Any;
use crate::param::param_at;
use crate::stats::set_of;
use crate::table::{CLOCK, COUNT, DELAY, KindName, PRIMARY, kind_of};
use mr_link::NicSettings;
use mr_nic::{TestNic, TrafficGen};
use ss_element::Wires;
use ss_fresh::{nic_settings, router_from};
use ss_graph::{LimitKind, Part};
use ss_kinds::{Echo, Pinger, StatName, TICKER_OUT, Ticker, place_in};
use ss_network::{
    EndpointAsk, MakeFault, Member, RouterAsk, Work, endpoint_at, generator_at, item_place, least,
    router_at,
};
use ss_stats::StatSet;
use ss_units::Text;
use std::alloc::{AllocError, Global};

/// The pinger that component `index` is.
#[tactic(auto, using(ss_graph::proofs::Judging::first_fault_append), unfolding(ss_graph::specs::Checks::first_fault))]
fn pinger_at(alloc: Global, part: &Part, index: usize) -> Result<Pinger, MakeFault>
    ensures { Judged is_memory (λ x. x) result (rows_by index part.now (Some kind.Pinger) ++ stats_by index part.now (Some kind.Pinger)) (pinger_of part.now) }
{
    let count = param_at(alloc, part.params.as_slice(), COUNT, index)?;
    let stats = set_of(alloc, KindName::Pinger, part, index)?;
    let roundtrip = place_in(&stats, StatName::Roundtrip);
    Ok(Pinger {
        name: part.name.copy(alloc)?,
        count: count as u32,
        sent: 0,
        got: 0,
        at: 0,
        stats,
        roundtrip,
    })
}

/// The echo that component `index` is.
#[tactic(auto, using(ss_graph::proofs::Judging::first_fault_append), unfolding(ss_graph::specs::Checks::first_fault))]
fn echo_at(alloc: Global, part: &Part, index: usize) -> Result<Echo, MakeFault>
    ensures { Judged is_memory (λ x. x) result (rows_by index part.now (Some kind.Echo) ++ stats_by index part.now (Some kind.Echo)) (echo_of part.now) }
{
    let delay = param_at(alloc, part.params.as_slice(), DELAY, index)?;
    let stats = set_of(alloc, KindName::Echo, part, index)?;
    let received = place_in(&stats, StatName::Received);
    Ok(Echo {
        delay,
        stats,
        received,
    })
}

/// The ticker that component `index` is, where a line leads from its port `out` or none does.
#[tactic(auto, using(ss_graph::proofs::Judging::first_fault_append), unfolding(ss_graph::specs::Checks::first_fault))]
fn ticker_at(alloc: Global, part: &Part, index: usize, linked: bool) -> Result<Ticker, MakeFault>
    ensures { Judged is_memory (λ x. x) result (rows_by index part.now (Some kind.Ticker) ++ stats_by index part.now (Some kind.Ticker)) (ticker_of part.now linked) }
{
    let params = part.params.as_slice();
    param_at(alloc, params, CLOCK, index)?;
    let count = param_at(alloc, params, COUNT, index)?;
    let primary = param_at(alloc, params, PRIMARY, index)?;
    let stats = set_of(alloc, KindName::Ticker, part, index)?;
    let events = place_in(&stats, StatName::Events);
    Ok(Ticker {
        name: part.name.copy(alloc)?,
        count: count as u32,
        primary: primary == 1,
        linked,
        begun: false,
        ticks: 0,
        stats,
        events,
    })
}

/// What component `index`, a router, asks for, if it has no more ports than there may be.
#[tactic(auto, using(ss_graph::proofs::Judging::first_fault_append), unfolding(ss_graph::specs::Checks::first_fault))]
fn router_in(alloc: Global, part: &Part, index: usize) -> Result<(RouterAsk, StatSet), MakeFault>
    ensures { Judged is_memory (λ v. v) result (rows_by index part.now (Some kind.Router) ++ rest_by index part.now (Some kind.Router)) (router_of part.now.params, empty_stats part.now.stats) }
{
    let router = router_at(alloc, part.params.as_slice(), index)?;
    let stats = set_of(alloc, KindName::Router, part, index)?;
    let ports = router.ports();
    if ports > 256 {
        return Err(MakeFault::Limit(LimitKind::Ports, u64::from(ports)));
    }
    Ok((router, stats))
}

/// What component `index`, a test endpoint, asks for.
#[tactic(auto, using(ss_graph::proofs::Judging::first_fault_append), unfolding(ss_graph::specs::Checks::first_fault))]
fn nic_in(alloc: Global, part: &Part, index: usize) -> Result<(EndpointAsk, StatSet), MakeFault>
    ensures { Judged is_memory (λ v. v) result (rows_by index part.now (Some kind.TestNic) ++ rest_by index part.now (Some kind.TestNic)) (endpoint_of part.now.params, empty_stats part.now.stats) }
{
    let endpoint = endpoint_at(alloc, part.params.as_slice(), index)?;
    let stats = set_of(alloc, KindName::TestNic, part, index)?;
    Ok((endpoint, stats))
}

/// What component `index`, a generator of traffic, asks for.
#[tactic(auto, using(ss_graph::proofs::Judging::first_fault_append), unfolding(ss_graph::specs::Checks::first_fault))]
fn traffic_in(alloc: Global, part: &Part, index: usize) -> Result<(EndpointAsk, StatSet), MakeFault>
    ensures { Judged is_memory (λ v. v) result (rows_by index part.now (Some kind.TrafficGen) ++ rest_by index part.now (Some kind.TrafficGen)) (generator_of part.now.params, empty_stats part.now.stats) }
{
    let endpoint = generator_at(alloc, part.params.as_slice(), index)?;
    let stats = set_of(alloc, KindName::TrafficGen, part, index)?;
    Ok((endpoint, stats))
}

/// That component `index` is of no kind.
fn no_kind(alloc: Global, index: usize) -> Result<MakeFault, AllocError>
    ensures { IfOk result (λ f. f ≡ MakeFault.UnknownType (at (codes "components") index ++ codes ".type")) }
{
    let mut place = item_place(alloc, "components", index)?;
    place.push_str(".type")?;
    Ok(MakeFault::UnknownType(Text::from_string(place)))
}

/// What component `index` is in a network, if its kind, its parameters and its statistics are as they must be.
#[tactic(auto, unfolding(ss_graph::specs::Checks::first_fault, crate::specs::Make::component_checks, crate::specs::Make::kind_checks, crate::specs::Make::stats_checks))]
fn member_at(alloc: Global, part: &Part, index: usize) -> Result<Member, MakeFault>
    ensures { Judged is_memory (λ m. m) result (component_checks index part.now) (member_of part.now) }
{
    match kind_of(part.kind.as_str()) {
        Some(KindName::Pinger) => {
            pinger_at(alloc, part, index)?;
            Ok(Member::Other)
        }
        Some(KindName::Echo) => {
            echo_at(alloc, part, index)?;
            Ok(Member::Other)
        }
        Some(KindName::Ticker) => {
            ticker_at(alloc, part, index, false)?;
            Ok(Member::Other)
        }
        Some(KindName::Router) => {
            let (router, _) = router_in(alloc, part, index)?;
            Ok(Member::Router(router))
        }
        Some(KindName::TestNic) => {
            let (endpoint, _) = nic_in(alloc, part, index)?;
            Ok(Member::Endpoint(endpoint))
        }
        Some(KindName::TrafficGen) => {
            let (endpoint, _) = traffic_in(alloc, part, index)?;
            Ok(Member::Endpoint(endpoint))
        }
        None => Err(no_kind(alloc, index)?),
    }
}

/// What the components are in a network, in order, if each is of a kind, with parameters and statistics that the kind has.
pub fn members_of(alloc: Global, parts: &[Part]) -> Result<Vec<Member>, MakeFault>
    ensures { Judged is_memory (λ v. v.items) result (components_checks parts.now) (map member_of parts.now) }
{
    let mut members = Vec::with_capacity(alloc, parts.len())?;
    for (index, part) in parts.iter().enumerate() {
        members.push(member_at(alloc, part, index)?)?;
    }
    Ok(members)
}

/// An endpoint, by what it sends.
fn nic_from(
    alloc: Global,
    set: NicSettings,
    work: Work,
    flits: u32,
    stats: StatSet,
) -> Result<Any, AllocError>
    requires fits { NicFits set flits }
    requires work { IsFitWork work set.peers set.vns }
    requires pattern { fits_pattern work set.peers ≡ true }
    ensures { IfOk result (λ x. x ≡ any_nic work (nic_by work set flits stats)) }
{
    match work {
        Work::Messages { count, verbose } => {
            let nic = TestNic::new(alloc, set, count, flits, verbose, stats)?;
            Ok(Any::TestNic(Housed::new(alloc, nic)?))
        }
        Work::Packets {
            count,
            pattern,
            vn,
            seed,
            hot,
        } => {
            let nic = TrafficGen::new(alloc, set, pattern, count, flits, vn, seed, hot, stats)?;
            Ok(Any::TrafficGen(Housed::new(alloc, nic)?))
        }
    }
}

/// The router that component `index` is as a run begins.
#[tactic(auto, unfolding(ss_graph::specs::Checks::first_fault))]
fn router_begun(
    alloc: Global,
    wires: &Wires,
    members: &[Member],
    most: u32,
    part: &Part,
    index: usize,
) -> Result<Any, MakeFault>
    requires few { index < 2 ^ 16 }
    requires net { IsNetwork wires.now members.now }
    requires run { AllCanRun members.now }
    requires here { slice_get members.now index ≡ Some (member.Router (router_of part.now.params)) }
    requires most { most ≡ least_of members.now }
    ensures { Judged is_memory (λ x. x) result (rows_by index part.now (Some kind.Router) ++ rest_by index part.now (Some kind.Router)) (begun_by wires.now members.now index part.now (Some kind.Router)) }
{
    let (router, stats) = router_in(alloc, part, index)?;
    let router = router_from(alloc, wires, members, index as u32, router, most, stats)?;
    Ok(Any::Router(Housed::new(alloc, router)?))
}

/// The endpoint that asks for this, component `index`, as a run begins.
fn nic_of(
    alloc: Global,
    wires: &Wires,
    members: &[Member],
    most: u32,
    part: &Part,
    index: usize,
    endpoint: &EndpointAsk,
    stats: StatSet,
) -> Result<Any, AllocError>
    requires few { index < 2 ^ 16 }
    requires net { IsNetwork wires.now members.now }
    requires run { AllCanRun members.now }
    requires here { slice_get members.now index ≡ Some (member.Endpoint endpoint.now) }
    requires most { most ≡ least_of members.now }
    ensures { IfOk result (λ x. x ≡ any_nic endpoint.now.work (begun_nic wires.now members.now index part.now.name endpoint.now stats)) }
{
    let name = part.name.copy(alloc)?;
    let set = nic_settings(wires, members, index as u32, name, endpoint, most);
    nic_from(alloc, set, endpoint.work, endpoint.flits as u32, stats)
}

/// The test endpoint that component `index` is as a run begins.
#[tactic(auto, unfolding(ss_graph::specs::Checks::first_fault))]
fn nic_begun(
    alloc: Global,
    wires: &Wires,
    members: &[Member],
    most: u32,
    part: &Part,
    index: usize,
) -> Result<Any, MakeFault>
    requires few { index < 2 ^ 16 }
    requires net { IsNetwork wires.now members.now }
    requires run { AllCanRun members.now }
    requires here { slice_get members.now index ≡ Some (member.Endpoint (endpoint_of part.now.params)) }
    requires most { most ≡ least_of members.now }
    ensures { Judged is_memory (λ x. x) result (rows_by index part.now (Some kind.TestNic) ++ rest_by index part.now (Some kind.TestNic)) (begun_by wires.now members.now index part.now (Some kind.TestNic)) }
{
    let (endpoint, stats) = nic_in(alloc, part, index)?;
    let nic = nic_of(alloc, wires, members, most, part, index, &endpoint, stats)?;
    Ok(nic)
}

/// The generator of traffic that component `index` is as a run begins.
#[tactic(auto, unfolding(ss_graph::specs::Checks::first_fault))]
fn traffic_begun(
    alloc: Global,
    wires: &Wires,
    members: &[Member],
    most: u32,
    part: &Part,
    index: usize,
) -> Result<Any, MakeFault>
    requires few { index < 2 ^ 16 }
    requires net { IsNetwork wires.now members.now }
    requires run { AllCanRun members.now }
    requires here { slice_get members.now index ≡ Some (member.Endpoint (generator_of part.now.params)) }
    requires most { most ≡ least_of members.now }
    ensures { Judged is_memory (λ x. x) result (rows_by index part.now (Some kind.TrafficGen) ++ rest_by index part.now (Some kind.TrafficGen)) (begun_by wires.now members.now index part.now (Some kind.TrafficGen)) }
{
    let (endpoint, stats) = traffic_in(alloc, part, index)?;
    let nic = nic_of(alloc, wires, members, most, part, index, &endpoint, stats)?;
    Ok(nic)
}

/// Component `index` as a run begins.
#[tactic(auto, unfolding(ss_graph::specs::Checks::first_fault, crate::specs::Make::component_checks, crate::specs::Make::kind_checks, crate::specs::Make::stats_checks))]
fn element_at(
    alloc: Global,
    wires: &Wires,
    members: &[Member],
    most: u32,
    part: &Part,
    index: usize,
) -> Result<Any, MakeFault>
    requires few { index < 2 ^ 16 }
    requires net { IsNetwork wires.now members.now }
    requires run { AllCanRun members.now }
    requires here { slice_get members.now index ≡ Some (member_of part.now) }
    requires most { most ≡ least_of members.now }
    ensures { Judged is_memory (λ x. x) result (component_checks index part.now) (begun wires.now members.now index part.now) }
{
    match kind_of(part.kind.as_str()) {
        Some(KindName::Pinger) => Ok(Any::Pinger(pinger_at(alloc, part, index)?)),
        Some(KindName::Echo) => Ok(Any::Echo(echo_at(alloc, part, index)?)),
        Some(KindName::Ticker) => {
            let linked = wires.line_from(index as u32, TICKER_OUT).is_some();
            Ok(Any::Ticker(ticker_at(alloc, part, index, linked)?))
        }
        Some(KindName::Router) => router_begun(alloc, wires, members, most, part, index),
        Some(KindName::TestNic) => nic_begun(alloc, wires, members, most, part, index),
        Some(KindName::TrafficGen) => traffic_begun(alloc, wires, members, most, part, index),
        None => Err(no_kind(alloc, index)?),
    }
}

/// The elements of the components as a run begins, in order.
pub fn elements_of(
    alloc: Global,
    wires: &Wires,
    members: &[Member],
    parts: &[Part],
) -> Result<Vec<Any>, MakeFault>
    requires few { length parts.now ≤ 2 ^ 16 }
    requires net { IsNetwork wires.now members.now }
    requires run { AllCanRun members.now }
    requires same { members.now ≡ map member_of parts.now }
    ensures { Judged is_memory (λ v. v.items) result (components_checks parts.now) (begun_from wires.now members.now 0 parts.now) }
{
    let most = least(members);
    let mut elements = Vec::with_capacity(alloc, parts.len())?;
    for (index, part) in parts.iter().enumerate() {
        elements.push(element_at(alloc, wires, members, most, part, index)?)?;
    }
    Ok(elements)
}
