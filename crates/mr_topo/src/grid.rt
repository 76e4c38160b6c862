//! What a mesh and a torus share: routers in rows of one to four dimensions.

ghost use Rattle.std.specs.Prelude.{◌≡◌, ℕ, ◌+◌, ◌-◌, ◌*◌, ◌/◌, ◌%◌, ◌<◌, ◌≤◌, ◌↔◌, IsTrue, IfOk, length, take, slice_index};
ghost use Rattle.mr_topo.specs.Routes.{flow_of, IsFlow};
ghost use Rattle.mr_topo.specs.Grid.{Grid, IsSized, IsGrid, IsShape, count_of, coordinate, placed, first_difference, after, is_edge, beside, ahead, goes_up, has_crossed, lane, lanes, port_of, opposite, peer_of, route_of, grid_routes};

use crate::shape::numbers_in;
use mr_flow::{Packet, Peer, ShapeFault};
use std::alloc::Global;

#[tactic(auto, using(crate::proofs::Rows::stride_fits, crate::proofs::Rows::stride_more, crate::proofs::Rows::stride_some))]
// How far apart the numbers of neighbours in a dimension are.
fn stride_of(sizes: &[u32], dimension: usize) -> u32
    requires sized { IsSized sizes.now }
    requires inside { dimension < length sizes.now }
    ensures value { result ≡ count_of (take dimension sizes.now) }
    ensures bound { result * slice_index sizes.now dimension ≤ 65536 }
    ensures some { 1 ≤ result }
{
    let mut stride = 1;
    for d in 0..dimension {
        stride *= sizes[d];
    }
    stride
}

fn coordinate_of(sizes: &[u32], router: u32, dimension: usize) -> u32
    requires sized { IsSized sizes.now }
    requires inside { dimension < length sizes.now }
    ensures value { result ≡ coordinate sizes.now router dimension }
    ensures bound { result < slice_index sizes.now dimension }
{
    router / stride_of(sizes, dimension) % sizes[dimension]
}

// The router with the coordinate `x` in a dimension, and else those of `router`.
#[tactic(auto, using(crate::proofs::Rows::stride_fits, crate::proofs::Rows::stride_product))]
fn placed_at(sizes: &[u32], router: u32, dimension: usize, x: u32) -> u32
    requires sized { IsSized sizes.now }
    requires inside { dimension < length sizes.now }
    requires router { router < count_of sizes.now }
    requires coordinate { x < slice_index sizes.now dimension }
    ensures value { result ≡ placed sizes.now router dimension x }
    ensures fits { result < count_of sizes.now }
{
    let stride = stride_of(sizes, dimension);
    let at = coordinate_of(sizes, router, dimension);
    router + x * stride - at * stride
}

fn lowest_difference(sizes: &[u32], mut a: u32, mut b: u32) -> Option<usize>
    requires { IsSized sizes.now }
    ensures { result ≡ first_difference sizes.now a b }
{
    for d in 0..sizes.len() {
        let size = sizes[d];
        if a % size != b % size {
            return Some(d);
        }
        a /= size;
        b /= size;
    }
    None
}

// The coordinate next to `x` in a row of `size` that is closed to a ring.
fn next_to(up: bool, size: u32, x: u32) -> u32
    requires { x < size }
    ensures { result ≡ after up size x }
{
    match (up, x) {
        (true, _) if x + 1 < size => x + 1,
        (true, _) => 0,
        (false, 0) => size - 1,
        (false, _) => x - 1,
    }
}

fn next_in_row(around: bool, up: bool, size: u32, x: u32) -> Option<u32>
    requires { x < size }
    ensures { result ≡ beside around up size x }
{
    let at_end = if up { x + 1 == size } else { x == 0 };
    if at_end && !around {
        None
    } else {
        Some(next_to(up, size, x))
    }
}

fn hops_up(size: u32, x: u32, t: u32) -> u32
    requires small { size ≤ 256 }
    requires from { x < size }
    requires to { t < size }
    ensures { result ≡ ahead size x t }
{
    if x <= t { t - x } else { t + size - x }
}

fn leads_up(around: bool, size: u32, x: u32, t: u32) -> bool
    requires small { size ≤ 256 }
    requires from { x < size }
    requires to { t < size }
    ensures { result ≡ goes_up around size x t }
{
    if around {
        hops_up(size, x, t) <= hops_up(size, t, x)
    } else {
        x < t
    }
}

fn lane_to(around: bool, up: bool, x: u32, source: u32) -> u8
    ensures value { result ≡ lane around up x source }
    ensures bound { result < lanes around }
{
    let crossed = if up { x < source } else { source < x };
    if around && crossed { 1 } else { 0 }
}

// Where a port of a router leads.
#[tactic(auto, using(crate::proofs::Rows::host_fits, crate::proofs::Rows::few_local, crate::proofs::Rows::coordinate_fits, crate::proofs::Rows::beside_fits))]
pub(crate) fn peer_at(
    sizes: &[u32],
    local_ports: u32,
    around: bool,
    router: u32,
    port: u16,
) -> Option<Peer>
    requires grid { IsGrid (record { sizes = sizes.now; local_ports = local_ports }) }
    requires router { router < count_of sizes.now }
    requires port { port < 2 * length sizes.now + local_ports }
    ensures { result ≡ peer_of around (record { sizes = sizes.now; local_ports = local_ports }) router port }
{
    let sides = 2 * sizes.len() as u16;
    if port >= sides {
        return Some(Peer::Host {
            id: router * local_ports + (port - sides) as u32,
        });
    }
    let dimension = (port / 2) as usize;
    let up = port % 2 == 0;
    let at = coordinate_of(sizes, router, dimension);
    match next_in_row(around, up, sizes[dimension], at) {
        None => None,
        Some(x) => Some(Peer::Router {
            id: placed_at(sizes, router, dimension, x),
            port: if up { port + 1 } else { port - 1 },
        }),
    }
}

// The output port of a packet at a router, and the channel on that port.
#[tactic(auto, using(crate::proofs::Rows::few_local, crate::proofs::Rows::local_some, crate::proofs::Rows::difference_fits, crate::proofs::Rows::router_fits))]
pub(crate) fn route_at(
    sizes: &[u32],
    local_ports: u32,
    around: bool,
    router: u32,
    packet: &Packet,
) -> (u16, u8)
    requires grid { IsGrid (record { sizes = sizes.now; local_ports = local_ports }) }
    requires router { router < count_of sizes.now }
    requires flow { IsFlow (grid_routes around (record { sizes = sizes.now; local_ports = local_ports })) (flow_of packet.now) }
    ensures { result ≡ route_of around (record { sizes = sizes.now; local_ports = local_ports }) router (flow_of packet.now) }
{
    let to = packet.dst / local_ports;
    let dimension = match lowest_difference(sizes, router, to) {
        None => {
            let port = 2 * sizes.len() as u32 + packet.dst % local_ports;
            return (port as u16, packet.vn);
        }
        Some(dimension) => dimension,
    };
    let size = sizes[dimension];
    let at = coordinate_of(sizes, router, dimension);
    let up = leads_up(around, size, at, coordinate_of(sizes, to, dimension));
    let source = coordinate_of(sizes, packet.src / local_ports, dimension);
    let lane = lane_to(around, up, next_to(up, size, at), source);
    let side = 2 * dimension as u16;
    let port = if up { side } else { side + 1 };
    let channel = if around { packet.vn * 2 } else { packet.vn };
    (port, channel + lane)
}

// How many routers there are.
#[tactic(auto, using(crate::proofs::Rows::stride_fits, crate::proofs::Rows::stride_more, crate::proofs::Rows::stride_bound, crate::proofs::Rows::stride_whole))]
pub(crate) fn routers_in(sizes: &[u32]) -> u32
    requires { IsSized sizes.now }
    ensures value { result ≡ count_of sizes.now }
    ensures bound { result ≤ 65536 }
{
    let mut count = 1;
    for d in 0..sizes.len() {
        count *= sizes[d];
    }
    count
}

// How many ports each router has.
pub(crate) fn ports_in(sizes: &[u32], local_ports: u32) -> u16
    requires { IsGrid (record { sizes = sizes.now; local_ports = local_ports }) }
    ensures { result ≡ 2 * length sizes.now + local_ports }
{
    2 * sizes.len() as u16 + local_ports as u16
}

// Whether dimensions of these sizes make a topology.
pub(crate) fn is_grid(sizes: &[u32], local_ports: u32) -> bool
    ensures { IsTrue result ↔ IsGrid (record { sizes = sizes.now; local_ports = local_ports }) }
{
    if sizes.is_empty() || sizes.len() > 4 {
        return false;
    }
    let mut routers = 1u64;
    for size in sizes {
        if *size < 2 || *size > 256 {
            return false;
        }
        routers *= *size as u64;
    }
    routers <= 65536 && routers * local_ports as u64 <= 4096
}

// The sizes of a shape's text.
#[tactic(auto, using(crate::proofs::Shapes::shape_spells, crate::proofs::Shapes::shape_once, crate::proofs::Shapes::shape_from))]
pub(crate) fn sizes_in(
    alloc: Global,
    shape: &[u8],
    local_ports: u32,
) -> Result<Vec<u32>, ShapeFault>
    ensures ok { IfOk result (λ v. IsShape (record { sizes = v.items; local_ports = local_ports }) shape.now) }
    ensures form { result ≡ Err ShapeFault.Form → (g : Grid) → g.local_ports ≡ local_ports → IsShape g shape.now → ⊥ }
{
    let sizes = numbers_in(alloc, shape, b'x', b'x')?;
    if is_grid(&sizes, local_ports) {
        Ok(sizes)
    } else {
        Err(ShapeFault::Form)
    }
}
