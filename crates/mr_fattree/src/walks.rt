//! Routes of all topologies in small shapes, against a plain breadth-first walk over their peers.

ghost use Rattle.std.specs.Prelude.{◌≡◌};
ghost use Rattle.mr_topo.specs.Routes.{flow_of};

use crate::FatTree;
use mr_flow::{Packet, Peer};
use mr_topo::{Mesh, Single, Torus};
use std::alloc::{AllocError, Global};
use std::process::Abort;
use std::test::Fail;

// What a topology says of its routers: where each port leads, and the port towards each endpoint.
#[derive(Drop)]
struct Drawing {
    peers: Vec<Vec<Option<Peer>>>,
    ways: Vec<Vec<u16>>,
    endpoints: u32,
}

fn packet(dst: u32) -> Packet
    ensures { flow_of result ≡ record { src = 0; dst = dst; vn = 0 } }
{
    Packet {
        src: 0,
        dst,
        vn: 0,
        flits: 1,
        seq: 0,
        born: 0,
        tag: 0,
    }
}

macro_rules! drawing {
    ($alloc:ident, $t:ident) => {{
        let mut peers = Vec::new($alloc);
        let mut ways = Vec::new($alloc);
        for router in 0..$t.routers() {
            let mut row = Vec::new($alloc);
            for port in 0..$t.ports(router) {
                row.push($t.peer(router, port))?;
            }
            peers.push(row)?;
        }
        for router in 0..$t.routers() {
            let mut row = Vec::new($alloc);
            for e in 0..$t.endpoints() {
                row.push($t.route(router, &packet(e)).0)?;
            }
            ways.push(row)?;
        }
        Ok(Drawing {
            peers,
            ways,
            endpoints: $t.endpoints(),
        })
    }};
}

fn drawn_single(alloc: Global, t: &Single) -> Result<Drawing, AllocError> {
    drawing!(alloc, t)
}

fn drawn_mesh(alloc: Global, t: &Mesh) -> Result<Drawing, AllocError> {
    drawing!(alloc, t)
}

fn drawn_torus(alloc: Global, t: &Torus) -> Result<Drawing, AllocError> {
    drawing!(alloc, t)
}

fn drawn_tree(alloc: Global, t: &FatTree) -> Result<Drawing, AllocError> {
    drawing!(alloc, t)
}

// The router of an endpoint.
fn home_of(drawing: &Drawing, e: u32) -> Option<usize> {
    for (r, row) in drawing.peers.iter().enumerate() {
        if row.iter().any(|p| *p == Some(Peer::Host { id: e })) {
            return Some(r);
        }
    }
    None
}

// Puts the routers beside a router that have no distance yet into the queue, each one hop further away.
fn spread(
    row: &[Option<Peer>],
    hops: u32,
    distances: &mut Vec<Option<u32>>,
    queue: &mut Vec<usize>,
) -> Result<(), AllocError> {
    for peer in row {
        if let Some(Peer::Router { id, .. }) = peer {
            let beside = *id as usize;
            if beside < distances.len() && distances[beside].is_none() {
                distances[beside] = Some(hops.saturating_add(1));
                queue.push(beside)?;
            }
        }
    }
    Ok(())
}

// How many hops between routers it is to a router from each, breadth first.
fn distances_to(
    alloc: Global,
    drawing: &Drawing,
    home: usize,
) -> Result<Vec<Option<u32>>, AllocError> {
    let mut distances = vec![in alloc; None; drawing.peers.len()]?;
    let mut queue = vec![in alloc; home]?;
    if home < distances.len() {
        distances[home] = Some(0);
    }
    for turn in 0..drawing.peers.len() {
        if turn < queue.len()
            && queue[turn] < drawing.peers.len()
            && queue[turn] < distances.len()
        {
            let at = queue[turn];
            let hops = distances[at].unwrap_or(0);
            spread(&drawing.peers[at], hops, &mut distances, &mut queue)?;
        }
    }
    Ok(distances)
}

// How many hops between routers a packet takes to an endpoint.
fn hops_from(drawing: &Drawing, from: usize, e: u32) -> Option<u32> {
    let mut at = from;
    for hops in 0..65_536u32 {
        let port = *drawing.ways.get(at)?.get(e as usize)?;
        let peer = *drawing.peers.get(at)?.get(port as usize)?;
        match peer? {
            Peer::Host { id } => return (id == e).then_some(hops),
            Peer::Router { id, .. } => at = id as usize,
        }
    }
    None
}

// Each packet goes the shortest way, from every router to every endpoint.
fn walks(rt: &impl Abort, alloc: Global, name: &str, drawing: &Drawing) -> Result<(), AllocError> {
    for e in 0..drawing.endpoints {
        let home = home_of(drawing, e).expect(rt, "an endpoint has a router");
        let distances = distances_to(alloc, drawing, home)?;
        for (r, distance) in distances.iter().enumerate() {
            assert!(rt; distance.is_some(), "{name} has parts");
            assert_eq!(rt;
                hops_from(drawing, r, e),
                *distance,
                "{name} from {r} to {e}"
            );
        }
    }
    Ok(())
}

#[test]
fn single_routers(rt: HostRuntime) -> Result<(), Fail> {
    for local_ports in [1, 2, 7] {
        let t = Single::new(local_ports);
        let drawing = drawn_single(rt.alloc(), &t)?;
        walks(&rt, rt.alloc(), "single", &drawing)?;
    }
    Ok(())
}

#[test]
fn meshes(rt: HostRuntime) -> Result<(), Fail> {
    for (shape, local_ports) in [("2", 1), ("5", 2), ("4x3", 2), ("2x3x2", 1), ("2x2x2x3", 1)] {
        let t = Mesh::read(rt.alloc(), shape.as_bytes(), local_ports)?;
        let drawing = drawn_mesh(rt.alloc(), &t)?;
        walks(&rt, rt.alloc(), shape, &drawing)?;
    }
    Ok(())
}

#[test]
fn tori(rt: HostRuntime) -> Result<(), Fail> {
    for (shape, local_ports) in [
        ("2", 2),
        ("5", 1),
        ("6", 1),
        ("4x3", 2),
        ("3x2x4", 1),
        ("2x2x2x3", 1),
    ] {
        let t = Torus::read(rt.alloc(), shape.as_bytes(), local_ports)?;
        let drawing = drawn_torus(rt.alloc(), &t)?;
        walks(&rt, rt.alloc(), shape, &drawing)?;
    }
    Ok(())
}

#[test]
fn fat_trees(rt: HostRuntime) -> Result<(), Fail> {
    for shape in [
        "4",
        "2,2:4",
        "2,1:3",
        "3,2:2,3:2",
        "2,3:3,1:2",
        "2,1:2,2:2,2:2",
    ] {
        let t = FatTree::read(rt.alloc(), shape.as_bytes())?;
        let drawing = drawn_tree(rt.alloc(), &t)?;
        walks(&rt, rt.alloc(), shape, &drawing)?;
    }
    Ok(())
}
