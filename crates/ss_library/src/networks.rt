//! A graph with a network, made.

use crate::{Any, MakeFault, make};
use ss_element::Model;
use ss_graph::read;
use std::alloc::Global;
use std::test::*;

// A router with two endpoints.
const SINGLE: &str =
    "{\"components\":[{\"name\":\"rtr0\",\"type\":\"merlin.hr_router\",\"params\":{\"id\":0,\"topology\":\"merlin.singlerouter\",\"topology.local_ports\":2,\"xbar_bw\":\"8GB/s\",\"num_vns\":2,\"flit_size\":\"8B\",\"link_bw\":\"8GB/s\",\"input_buf_size\":\"1KiB\",\"output_buf_size\":\"512B\"},\"statistics\":[{\"name\":\"sent\"}]},{\"name\":\"nic0\",\"type\":\"merlin.test_nic\",\"params\":{\"id\":0,\"num_peers\":2,\"num_vns\":2,\"flit_size\":\"8B\",\"link_bw\":\"8GB/s\",\"input_buf_size\":\"1KiB\",\"output_buf_size\":\"512B\"},\"statistics\":[{\"name\":\"latency\"}]},{\"name\":\"nic1\",\"type\":\"merlin.test_nic\",\"params\":{\"id\":1,\"num_peers\":2,\"num_vns\":2,\"flit_size\":\"8B\",\"link_bw\":\"8GB/s\",\"input_buf_size\":\"1KiB\",\"output_buf_size\":\"512B\"},\"statistics\":[{\"name\":\"latency\"}]}],\"links\":[{\"name\":\"l0\",\"left\":{\"component\":\"nic0\",\"port\":\"rtr\",\"latency\":\"10ns\"},\"right\":{\"component\":\"rtr0\",\"port\":\"port0\",\"latency\":\"10ns\"}},{\"name\":\"l1\",\"left\":{\"component\":\"nic1\",\"port\":\"rtr\",\"latency\":\"10ns\"},\"right\":{\"component\":\"rtr0\",\"port\":\"port1\",\"latency\":\"10ns\"}}]}";

fn made(alloc: Global, text: &str) -> Result<Model<Any>, MakeFault> {
    match read(alloc, text.as_bytes()) {
        Ok(graph) => make(alloc, &graph),
        Err(_) => Err(MakeFault::NoMemory),
    }
}

#[test]
fn a_single_router_is_made(rt: HostRuntime) -> Result<(), Fail> {
    let model = made(rt.alloc(), SINGLE).ok().ok_or("a model")?;
    assert_eq!(rt; model.elements.len(), 3);
    assert!(rt; matches!(model.elements.get(0), Some(Any::Router(_))));
    assert!(rt; matches!(model.elements.get(2), Some(Any::TestNic(_))));
    assert_eq!(rt; model.wires.counts(), (4, 0, 3));
    Ok(())
}

// A router with a generator of traffic and a test endpoint.
const MIXED: &str =
    "{\"components\":[{\"name\":\"rtr0\",\"type\":\"merlin.hr_router\",\"params\":{\"id\":0,\"topology\":\"merlin.singlerouter\",\"topology.local_ports\":2,\"xbar_bw\":\"8GB/s\",\"num_vns\":1,\"flit_size\":\"8B\",\"link_bw\":\"8GB/s\",\"input_buf_size\":\"1KiB\",\"output_buf_size\":\"1KiB\"}},{\"name\":\"gen0\",\"type\":\"merlin.trafficgen\",\"params\":{\"id\":0,\"num_peers\":2,\"pattern\":\"hotspot\",\"hot\":1,\"num_vns\":1,\"flit_size\":\"8B\",\"link_bw\":\"8GB/s\",\"input_buf_size\":\"1KiB\",\"output_buf_size\":\"1KiB\"},\"statistics\":[{\"name\":\"sent\"}]},{\"name\":\"nic1\",\"type\":\"merlin.test_nic\",\"params\":{\"id\":1,\"num_peers\":2,\"num_vns\":1,\"flit_size\":\"8B\",\"link_bw\":\"8GB/s\",\"input_buf_size\":\"1KiB\",\"output_buf_size\":\"1KiB\"}}],\"links\":[{\"name\":\"l0\",\"left\":{\"component\":\"gen0\",\"port\":\"rtr\",\"latency\":\"10ns\"},\"right\":{\"component\":\"rtr0\",\"port\":\"port0\",\"latency\":\"10ns\"}},{\"name\":\"l1\",\"left\":{\"component\":\"nic1\",\"port\":\"rtr\",\"latency\":\"10ns\"},\"right\":{\"component\":\"rtr0\",\"port\":\"port1\",\"latency\":\"10ns\"}}]}";

#[test]
fn a_generator_is_made(rt: HostRuntime) -> Result<(), Fail> {
    let model = made(rt.alloc(), MIXED).ok().ok_or("a model")?;
    assert_eq!(rt; model.elements.len(), 3);
    assert!(rt; matches!(model.elements.get(1), Some(Any::TrafficGen(_))));
    assert!(rt; matches!(model.elements.get(2), Some(Any::TestNic(_))));
    assert_eq!(rt; model.wires.counts(), (4, 0, 3));
    Ok(())
}
