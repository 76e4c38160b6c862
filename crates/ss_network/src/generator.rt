//! What generators of traffic ask for by their parameters.

ghost use Rattle.std.specs.Prelude.{◌≡◌, ◌≤◌, ◌∷◌, ◌++◌, [], IfOk, unwrap_or};
ghost use Rattle.ss_graph.specs.Checks.{Judged};
ghost use Rattle.ss_graph.specs.Options.{the};
ghost use Rattle.ss_network.specs.Faults.{is_memory};
ghost use Rattle.ss_network.specs.Params.{number};
ghost use Rattle.ss_network.specs.Asks.{networks_in as number_of_networks, batch_checks, batch_of, has_hot as has_hot_endpoint, hot_checks, hot_of as the_hot, aim_checks, aim_of, generator_checks, generator_of};

use crate::ask::{EndpointAsk, Work, buffers_at, pace_at, time_or_zero};
use crate::fault::MakeFault;
use crate::param::{
    ID, NUM_PEERS, NUM_VNS, PACKET_SIZE, PACKETS, SEED, hot_of, number_at, number_of, pattern_at,
    vn_of,
};
use mr_nic::Pattern;
use ss_units::{Text, flit_time};
use std::alloc::Global;

/// What a generator sends: by which pattern, how many packets, and of how many bits.
#[derive(Clone, Copy, Debug)]
pub struct Batch {
    pub pattern: Pattern,
    pub count: u32,
    pub bits: u64,
}

/// Where a generator's packets go: on which virtual network, by the words of which seed, and to which endpoint as a hotspot.
#[derive(Clone, Copy, Debug)]
pub struct Aim {
    pub vn: u8,
    pub seed: u64,
    pub hot: u32,
}

fn networks_in(params: &[(Text, Text)]) -> u8
    ensures value { result ≡ number_of_networks params.now }
    ensures some { 1 ≤ result }
    ensures few { result ≤ 8 }
{
    match number_of(params, NUM_VNS) {
        None => 2,
        Some(n) => n as u8,
    }
}

/// What component `index` sends.
#[tactic(auto, unfolding(ss_graph::specs::Checks::first_fault, crate::specs::Asks::batch_checks))]
fn batch_at(alloc: Global, params: &[(Text, Text)], index: usize) -> Result<Batch, MakeFault>
    ensures { Judged is_memory (λ b. b) result (batch_checks index params.now) (batch_of params.now) }
{
    let pattern = pattern_at(alloc, params, index)?;
    let count = number_at(alloc, params, PACKETS, index)?;
    let bits = number_at(alloc, params, PACKET_SIZE, index)?;
    Ok(Batch {
        pattern,
        count: count as u32,
        bits,
    })
}

fn has_hot(pattern: Pattern) -> bool
    ensures { result ≡ has_hot_endpoint pattern }
{
    match pattern {
        Pattern::Hotspot => true,
        Pattern::Uniform | Pattern::Complement | Pattern::Transpose | Pattern::Tornado => false,
    }
}

/// The hot endpoint of component `index`, where its pattern has one.
#[tactic(auto, unfolding(ss_graph::specs::Checks::first_fault))]
fn hot_at(
    alloc: Global,
    params: &[(Text, Text)],
    index: usize,
    peers: u32,
    pattern: Pattern,
) -> Result<u32, MakeFault>
    requires { 1 ≤ peers }
    ensures { Judged is_memory (λ n. n) result (hot_checks index params.now peers (has_hot_endpoint pattern)) (the_hot params.now peers (has_hot_endpoint pattern)) }
{
    if !has_hot(pattern) {
        return Ok(0);
    }
    let hot = number_at(alloc, params, hot_of(peers), index)?;
    Ok(hot as u32)
}

/// Where the packets of component `index` go.
#[tactic(auto, unfolding(ss_graph::specs::Checks::first_fault, crate::specs::Asks::aim_checks))]
fn aim_at(
    alloc: Global,
    params: &[(Text, Text)],
    index: usize,
    peers: u32,
    pattern: Pattern,
) -> Result<Aim, MakeFault>
    requires { 1 ≤ peers }
    ensures { Judged is_memory (λ a. a) result (aim_checks index params.now peers pattern) (aim_of params.now peers pattern) }
{
    let vns = networks_in(params);
    let vn = number_at(alloc, params, vn_of(vns), index)?;
    let seed = number_at(alloc, params, SEED, index)?;
    let hot = hot_at(alloc, params, index, peers, pattern)?;
    Ok(Aim {
        vn: vn as u8,
        seed,
        hot,
    })
}

/// What the parameters of component `index`, a `merlin.trafficgen`, ask for, or the first check of them that fails. Its virtual network
/// is below `num_vns`, or below 2 where that is no such number; the hot endpoint is read for a hotspot alone. The parameters and their
/// ranges are after Merlin, their order is this project's own.
#[tactic(auto, using(ss_graph::proofs::Judging::first_fault_append), unfolding(ss_graph::specs::Checks::first_fault, crate::specs::Asks::generator_checks))]
pub fn generator_at(
    alloc: Global,
    params: &[(Text, Text)],
    index: usize,
) -> Result<EndpointAsk, MakeFault>
    ensures { Judged is_memory (λ e. e) result (generator_checks index params.now) (generator_of params.now) }
{
    let id = number_at(alloc, params, ID, index)?;
    let peers = number_at(alloc, params, NUM_PEERS, index)?;
    let batch = batch_at(alloc, params, index)?;
    let aim = aim_at(alloc, params, index, peers as u32, batch.pattern)?;
    let pace = pace_at(alloc, params, index)?;
    let time = flit_time(pace.flit_bits, pace.link);
    let buffers = buffers_at(alloc, params, index, pace.flit_bits, time, time)?;
    Ok(EndpointAsk {
        id: id as u32,
        peers: peers as u32,
        flits: batch.bits.div_ceil(pace.flit_bits),
        work: Work::Packets {
            count: batch.count,
            pattern: batch.pattern,
            vn: aim.vn,
            seed: aim.seed,
            hot: aim.hot,
        },
        vns: pace.vns,
        flit_bits: pace.flit_bits,
        flit_time: time_or_zero(time),
        input_flits: buffers.input,
        output_flits: buffers.output,
    })
}
