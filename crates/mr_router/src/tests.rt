//! Rows that are known from elsewhere, through the one type.

use crate::{ArbKind, Router, RouterSettings, Topology};
use mr_fattree::FatTree;
use mr_flow::Peer;
use mr_topo::{Single, Torus};
use ss_element::{Cause, Element};
use ss_stats::StatSet;
use ss_wire::{Reader, Writer};
use std::alloc::{AllocError, Global};
use std::test::Fail;

#[test]
fn ports_and_lanes(rt: HostRuntime) -> Result<(), Fail> {
    let torus = Topology::Torus(Torus::read(rt.alloc(), b"4x4", 1)?);
    assert_eq!(rt; torus.routers(), 16);
    assert_eq!(rt; torus.endpoints(), 16);
    assert_eq!(rt; torus.ports(3), 5);
    assert_eq!(rt; torus.channels(), 2);
    let tree = Topology::FatTree(FatTree::read(rt.alloc(), b"2,2:4")?);
    assert_eq!(rt; tree.routers(), 6);
    assert_eq!(rt; tree.endpoints(), 8);
    assert_eq!(rt; tree.ports(0), 4);
    assert_eq!(rt; tree.peer(0, 3), Some(Peer::Router { id: 5, port: 0 }));
    Ok(())
}

fn crosses<T: Send + Sync + Drop>(_value: T) {}

// A single router with two ports of one channel, at which nothing happened yet.
fn single_router(alloc: Global) -> Result<Router, AllocError> {
    let set = RouterSettings {
        id: 0,
        topology: Topology::Single(Single::new(2)),
        vns: 1,
        flit_time: 1000,
        period: 1000,
        input_flits: 8,
        output_flits: 8,
        arb: ArbKind::RoundRobin,
        endpoints: 2,
        least: 8,
    };
    let stats = StatSet::new(alloc);
    Router::new(alloc, set, &[Some(8), Some(8)], stats)
}

#[test]
fn a_router_is_made(rt: HostRuntime) -> Result<(), Fail> {
    let router = single_router(rt.alloc())?;
    assert!(rt; router.fits(1));
    assert!(rt; !router.clock_on(0));
    assert!(rt; router.fits_load(&Cause::Tick { clock: 0 }, 1));
    assert!(rt; !router.is_primary() && router.is_done());
    assert_eq!(rt; router.channels(1), 1);
    assert_eq!(rt; router.channels(2), 0);
    assert_eq!(rt; router.stats().len(), 0);
    crosses(router);
    Ok(())
}

// What a router writes of itself.
fn saved(router: &Router, alloc: Global) -> Result<Vec<u8>, AllocError> {
    let mut out = Writer::new(alloc);
    router.save(&mut out)?;
    Ok(out.finish())
}

#[test]
fn a_router_is_read_back(rt: HostRuntime) -> Result<(), Fail> {
    let alloc = rt.alloc();
    // Of the first port and of the second: three times, a turn, two empty queues and 8 credits; then the two slots to begin with.
    let mut bytes = Vec::from_elem(alloc, 0u8, 82)?;
    assert!(rt; bytes.len() == 82);
    bytes[7] = 5;
    bytes[36] = 8;
    bytes[73] = 7;
    bytes[81] = 1;
    let mut router = single_router(alloc)?;
    let mut reader = Reader::new(&bytes, 0);
    assert!(rt; router.restore(alloc, &mut reader).is_ok());
    assert_eq!(rt; saved(&router, alloc)?.as_slice(), bytes.as_slice());
    assert!(rt; router.fits(1));
    bytes[81] = 2;
    let mut reader = Reader::new(&bytes, 0);
    assert!(rt; router.restore(alloc, &mut reader).is_ok());
    assert!(rt; !router.fits(1));
    assert_eq!(rt; saved(&router, alloc)?.as_slice(), bytes.as_slice());
    Ok(())
}
