//! What routers and endpoints ask for by their parameters.

ghost use Rattle.std.specs.Prelude.{◌≡◌, ◌≤◌, ◌∷◌, ◌++◌, [], MatchResult, IfOk, Some, unwrap_or};
ghost use Rattle.ss_units.specs.Units.{flit_ps};
ghost use Rattle.ss_graph.specs.Checks.{Judged};
ghost use Rattle.ss_graph.specs.Options.{the};
ghost use Rattle.ss_network.specs.Faults.{is_memory};
ghost use Rattle.ss_network.specs.Params.{number, IsNumber, id_row, num_peers_row, num_messages_row, message_size_row, row_check};
ghost use Rattle.ss_network.specs.Asks.{local_ports, mesh_by, torus_by, tree_in, shaped, name_of, the_topology, topology_checks, pace_checks, pace_of, lasts, capacity_of, flits_in, buffer_check, buffers_checks, buffers_of, or_zero, router_checks, router_of, endpoint_checks, endpoint_of};

use crate::fault::MakeFault;
use crate::param::{
    FLIT_SIZE, ID, INPUT_BUF, LINK_BW, LOCAL_PORTS, MESSAGE_SIZE, NUM_MESSAGES, NUM_PEERS, NUM_VNS,
    OUTPUT_BUF, ParamName, ParamRow, TopologyName, VERBOSE, XBAR_BW, arb_at, number_at, number_of,
    place_of, text_of, topology_by,
};
use mr_arb::ArbKind;
use mr_fattree::FatTree;
use mr_flow::ShapeFault;
use mr_nic::Pattern;
use mr_router::Topology;
use mr_topo::{Mesh, Single, Torus};
use ss_units::{Text, UnitFault, flit_time};
use std::alloc::Global;

/// What a router asks for. Times are in picoseconds.
#[derive(Drop)]
pub struct RouterAsk {
    pub id: u32,
    pub topology: Topology,
    pub vns: u8,
    pub flit_bits: u64,
    pub flit_time: u64,
    pub period: u64,
    pub input_flits: u32,
    pub output_flits: u32,
    pub arb: ArbKind,
}

/// What an endpoint sends.
#[derive(Clone, Copy, Debug, PartialEq, Eq)]
pub enum Work {
    /// So many messages to each of the others, and whether it tells that it is done.
    Messages {
        count: u32,
        verbose: bool,
    },
    /// So many packets by a pattern, on one virtual network.
    Packets {
        count: u32,
        pattern: Pattern,
        vn: u8,
        seed: u64,
        hot: u32,
    },
}

/// What an endpoint asks for. Times are in picoseconds.
#[derive(Drop)]
pub struct EndpointAsk {
    pub id: u32,
    pub peers: u32,
    /// The flits of each message or packet.
    pub flits: u64,
    pub work: Work,
    pub vns: u8,
    pub flit_bits: u64,
    pub flit_time: u64,
    pub input_flits: u32,
    pub output_flits: u32,
}

/// The virtual networks, the bits of a flit, and the bits that a line takes in a second.
#[derive(Clone, Copy, Debug)]
pub struct Pace {
    pub vns: u8,
    pub flit_bits: u64,
    pub link: u64,
}

/// The capacities of the queues, in flits.
#[derive(Clone, Copy, Debug)]
pub struct Buffers {
    pub input: u32,
    pub output: u32,
}

fn name_in(params: &[(Text, Text)]) -> Option<TopologyName>
    ensures { result ≡ name_of params.now }
{
    match text_of(params, ParamName::Topology) {
        None => None,
        Some(text) => topology_by(text),
    }
}

fn local_ports_in(params: &[(Text, Text)]) -> u32
    ensures value { result ≡ local_ports params.now }
    ensures some { 1 ≤ result }
    ensures few { result ≤ 255 }
{
    match number_of(params, LOCAL_PORTS) {
        None => 1,
        Some(n) => n as u32,
    }
}

fn mesh_in(alloc: Global, text: &str, local: u32) -> Result<Option<Topology>, MakeFault>
    ensures { MatchResult result (λ o. o ≡ mesh_by local (Some text.now)) (λ e. e ≡ MakeFault.NoMemory) }
{
    match Mesh::read(alloc, text.as_bytes(), local) {
        Ok(mesh) => Ok(Some(Topology::Mesh(mesh))),
        Err(ShapeFault::Form) => Ok(None),
        Err(ShapeFault::NoMemory) => Err(MakeFault::NoMemory),
    }
}

fn torus_in(alloc: Global, text: &str, local: u32) -> Result<Option<Topology>, MakeFault>
    ensures { MatchResult result (λ o. o ≡ torus_by local (Some text.now)) (λ e. e ≡ MakeFault.NoMemory) }
{
    match Torus::read(alloc, text.as_bytes(), local) {
        Ok(torus) => Ok(Some(Topology::Torus(torus))),
        Err(ShapeFault::Form) => Ok(None),
        Err(ShapeFault::NoMemory) => Err(MakeFault::NoMemory),
    }
}

fn tree_of_text(alloc: Global, text: &str) -> Result<Option<Topology>, MakeFault>
    ensures { MatchResult result (λ o. o ≡ tree_in (Some text.now)) (λ e. e ≡ MakeFault.NoMemory) }
{
    match FatTree::read(alloc, text.as_bytes()) {
        Ok(tree) => Ok(Some(Topology::FatTree(tree))),
        Err(ShapeFault::Form) => Ok(None),
        Err(ShapeFault::NoMemory) => Err(MakeFault::NoMemory),
    }
}

fn shaped_by(
    alloc: Global,
    params: &[(Text, Text)],
    name: TopologyName,
) -> Result<Option<Topology>, MakeFault>
    ensures { MatchResult result (λ o. o ≡ shaped params.now name) (λ e. e ≡ MakeFault.NoMemory) }
{
    let local = local_ports_in(params);
    if name == TopologyName::Single {
        return Ok(Some(Topology::Single(Single::new(local))));
    }
    let Some(text) = text_of(params, ParamName::Shape) else {
        return Ok(None);
    };
    match name {
        TopologyName::Single => Ok(Some(Topology::Single(Single::new(local)))),
        TopologyName::Mesh => mesh_in(alloc, text, local),
        TopologyName::Torus => torus_in(alloc, text, local),
        TopologyName::FatTree => tree_of_text(alloc, text),
    }
}

/// The topology of component `index`.
#[tactic(auto, unfolding(ss_graph::specs::Checks::first_fault, crate::specs::Asks::topology_checks))]
fn topology_at(alloc: Global, params: &[(Text, Text)], index: usize) -> Result<Topology, MakeFault>
    ensures { Judged is_memory (λ t. t) result (topology_checks index params.now) (the_topology params.now) }
{
    let Some(name) = name_in(params) else {
        return Err(MakeFault::Param(place_of(alloc, index, ParamName::Topology)?));
    };
    let Some(topology) = shaped_by(alloc, params, name)? else {
        return Err(MakeFault::Param(place_of(alloc, index, ParamName::Shape)?));
    };
    if name != TopologyName::FatTree {
        number_at(alloc, params, LOCAL_PORTS, index)?;
    }
    Ok(topology)
}

/// The virtual networks, flits and lines of component `index`.
#[tactic(auto, unfolding(ss_graph::specs::Checks::first_fault, crate::specs::Asks::pace_checks))]
pub fn pace_at(alloc: Global, params: &[(Text, Text)], index: usize) -> Result<Pace, MakeFault>
    ensures judged { Judged is_memory (λ p. p) result (pace_checks index params.now) (pace_of params.now) }
    ensures flits { IfOk result (λ p. 1 ≤ p.flit_bits) }
{
    let vns = number_at(alloc, params, NUM_VNS, index)?;
    let flit_bits = number_at(alloc, params, FLIT_SIZE, index)?;
    let link = number_at(alloc, params, LINK_BW, index)?;
    Ok(Pace {
        vns: vns as u8,
        flit_bits,
        link,
    })
}

fn is_short(flits: u64, time: Result<u64, UnitFault>) -> bool
    ensures { result ≡ lasts flits time }
{
    match time {
        Ok(time) => flits as u128 * time as u128 <= 1 << 40,
        Err(_) => false,
    }
}

fn capacity(
    flit: u64,
    time: Result<u64, UnitFault>,
    period: Result<u64, UnitFault>,
    bits: Option<u64>,
) -> Option<u32>
    requires { 1 ≤ flit }
    ensures { result ≡ capacity_of flit time period bits }
{
    let flits = bits? / flit;
    if flits >= 1 && flits <= 1 << 20 && is_short(flits, time) && is_short(flits, period) {
        Some(flits as u32)
    } else {
        None
    }
}

/// The flits that a buffer of component `index` holds.
#[tactic(auto, unfolding(ss_graph::specs::Checks::first_fault))]
fn buffer_at(
    alloc: Global,
    params: &[(Text, Text)],
    row: ParamRow,
    index: usize,
    flit: u64,
    time: Result<u64, UnitFault>,
    period: Result<u64, UnitFault>,
) -> Result<u32, MakeFault>
    requires { 1 ≤ flit }
    ensures { Judged is_memory (λ n. n) result (buffer_check index flit time period params.now row ∷ []) (the (flits_in flit time period params.now row)) }
{
    match capacity(flit, time, period, number_of(params, row)) {
        Some(flits) => Ok(flits),
        None => Err(MakeFault::Param(place_of(alloc, index, row.name)?)),
    }
}

/// The buffers of component `index`.
#[tactic(auto, unfolding(ss_graph::specs::Checks::first_fault, crate::specs::Asks::buffers_checks))]
pub fn buffers_at(
    alloc: Global,
    params: &[(Text, Text)],
    index: usize,
    flit: u64,
    time: Result<u64, UnitFault>,
    period: Result<u64, UnitFault>,
) -> Result<Buffers, MakeFault>
    requires { 1 ≤ flit }
    ensures { Judged is_memory (λ b. b) result (buffers_checks index flit time period params.now) (buffers_of flit time period params.now) }
{
    let input = buffer_at(alloc, params, INPUT_BUF, index, flit, time, period)?;
    let output = buffer_at(alloc, params, OUTPUT_BUF, index, flit, time, time)?;
    Ok(Buffers { input, output })
}

pub fn time_or_zero(time: Result<u64, UnitFault>) -> u64
    ensures { result ≡ or_zero time }
{
    match time {
        Ok(time) => time,
        Err(_) => 0,
    }
}

/// What the parameters of component `index`, a `merlin.hr_router`, ask for, or the first check of them that fails.
#[tactic(auto, using(ss_graph::proofs::Judging::first_fault_append), unfolding(ss_graph::specs::Checks::first_fault, crate::specs::Asks::router_checks))]
pub fn router_at(
    alloc: Global,
    params: &[(Text, Text)],
    index: usize,
) -> Result<RouterAsk, MakeFault>
    ensures { Judged is_memory (λ r. r) result (router_checks index params.now) (router_of params.now) }
{
    let id = number_at(alloc, params, ID, index)?;
    let topology = topology_at(alloc, params, index)?;
    let pace = pace_at(alloc, params, index)?;
    let cross = number_at(alloc, params, XBAR_BW, index)?;
    let time = flit_time(pace.flit_bits, pace.link);
    let period = flit_time(pace.flit_bits, cross);
    let buffers = buffers_at(alloc, params, index, pace.flit_bits, time, period)?;
    let arb = arb_at(alloc, params, index)?;
    Ok(RouterAsk {
        id: id as u32,
        topology,
        vns: pace.vns,
        flit_bits: pace.flit_bits,
        flit_time: time_or_zero(time),
        period: time_or_zero(period),
        input_flits: buffers.input,
        output_flits: buffers.output,
        arb,
    })
}

/// What the parameters of component `index`, a `merlin.test_nic`, ask for, or the first check of them that fails.
#[tactic(auto, using(ss_graph::proofs::Judging::first_fault_append), unfolding(ss_graph::specs::Checks::first_fault, crate::specs::Asks::endpoint_checks))]
pub fn endpoint_at(
    alloc: Global,
    params: &[(Text, Text)],
    index: usize,
) -> Result<EndpointAsk, MakeFault>
    ensures { Judged is_memory (λ e. e) result (endpoint_checks index params.now) (endpoint_of params.now) }
{
    let id = number_at(alloc, params, ID, index)?;
    let peers = number_at(alloc, params, NUM_PEERS, index)?;
    let messages = number_at(alloc, params, NUM_MESSAGES, index)?;
    let message = number_at(alloc, params, MESSAGE_SIZE, index)?;
    let pace = pace_at(alloc, params, index)?;
    let time = flit_time(pace.flit_bits, pace.link);
    let buffers = buffers_at(alloc, params, index, pace.flit_bits, time, time)?;
    let verbose = number_at(alloc, params, VERBOSE, index)?;
    Ok(EndpointAsk {
        id: id as u32,
        peers: peers as u32,
        flits: message.div_ceil(pace.flit_bits),
        work: Work::Messages {
            count: messages as u32,
            verbose: verbose == 1,
        },
        vns: pace.vns,
        flit_bits: pace.flit_bits,
        flit_time: time_or_zero(time),
        input_flits: buffers.input,
        output_flits: buffers.output,
    })
}
