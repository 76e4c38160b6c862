//! What no clause says: that graphs are divided where memory is there, and divisions worked by hand.

ghost use Rattle.std.specs.Prelude.{◌≡◌, length};
ghost use Rattle.ss_graph.specs.Fit.{IsFit};

use crate::{How, PartFault, Partition, assign, lookahead};
use ss_graph::{Graph, read};
use std::test::*;

// A ring of four tickers.
const RING: &str =
    "{\"components\":[{\"name\":\"a\",\"type\":\"core.ticker\",\"partition\":{\"thread\":5}},{\"name\":\"b\",\"type\":\"core.ticker\"},{\"name\":\"c\",\"type\":\"core.ticker\"},{\"name\":\"d\",\"type\":\"core.ticker\"}],\"links\":[{\"name\":\"w\",\"left\":{\"component\":\"a\",\"port\":\"out\",\"latency\":\"1ps\"},\"right\":{\"component\":\"b\",\"port\":\"in0\",\"latency\":\"1ps\"}},{\"name\":\"x\",\"left\":{\"component\":\"b\",\"port\":\"out\",\"latency\":\"5ps\"},\"right\":{\"component\":\"c\",\"port\":\"in0\",\"latency\":\"5ps\"}},{\"name\":\"y\",\"left\":{\"component\":\"c\",\"port\":\"out\",\"latency\":\"1ps\"},\"right\":{\"component\":\"d\",\"port\":\"in0\",\"latency\":\"1ps\"}},{\"name\":\"z\",\"left\":{\"component\":\"d\",\"port\":\"out\",\"latency\":\"9ps\"},\"right\":{\"component\":\"a\",\"port\":\"in0\",\"latency\":\"9ps\"}}]}";

fn crosses<T: Send + Sync + Drop>(_value: T) {}

/// The parts of four components, and the least latency between two parts.
fn shown(graph: &Graph, partition: &Partition) -> Option<([u32; 4], u64)>
    requires fit { IsFit graph.now }
    requires whole { length partition.now.list ≡ length graph.now.components }
{
    if graph.components.as_slice().len() != 4 {
        return None;
    }
    let parts = [
        partition.part_of(0),
        partition.part_of(1),
        partition.part_of(2),
        partition.part_of(3),
    ];
    Some((parts, lookahead(graph, partition)))
}

#[test]
fn a_ring_is_divided(rt: HostRuntime) -> Result<(), Fail> {
    let rows = [
        (2, How::Latency, [0, 0, 1, 1], 5),
        (3, How::Latency, [0, 0, 1, 2], 1),
        (1, How::Latency, [0, 0, 0, 0], 1 << 62),
        (2, How::RoundRobin, [0, 1, 0, 1], 1),
        (3, How::Linear, [0, 0, 1, 2], 1),
        (4, How::Single, [0, 0, 0, 0], 1 << 62),
    ];
    for (parts, how, list, cut) in rows {
        let graph = read(rt.alloc(), RING.as_bytes()).ok().ok_or("a graph")?;
        let partition = assign(rt.alloc(), &graph, parts, how)?;
        assert_eq!(rt; partition.parts(), parts);
        assert_eq!(rt; shown(&graph, &partition), Some((list, cut)));
        crosses(partition);
    }
    Ok(())
}

#[test]
fn a_ring_is_refused(rt: HostRuntime) -> Result<(), Fail> {
    let rows = [
        (4, How::SelfNamed, PartFault::BadThread { component: 0 }),
        (6, How::SelfNamed, PartFault::Parts { asked: 6 }),
        (0, How::Linear, PartFault::Parts { asked: 0 }),
        (5, How::Single, PartFault::Parts { asked: 5 }),
    ];
    for (parts, how, fault) in rows {
        let graph = read(rt.alloc(), RING.as_bytes()).ok().ok_or("a graph")?;
        match assign(rt.alloc(), &graph, parts, how) {
            Ok(_) => assert!(rt; false),
            Err(found) => assert_eq!(rt; found, fault),
        }
    }
    Ok(())
}
