//! The ways that a router keeps, so that it looks one up once for a packet that waits.

ghost use Rattle.std.specs.Prelude.{◌≡◌, ◌<◌, IfOk, None, replicate};
ghost use Rattle.mr_topo.specs.Routes.{flow_of, IsFlow};
ghost use Rattle.mr_router.specs.Network.{routes};
ghost use Rattle.mr_router.specs.Router.{way};
ghost use Rattle.mr_router.specs.Ways.{goes, AreWays};

use crate::settings::RouterSettings;
use mr_flow::Packet;
use std::alloc::{AllocError, Global};

/// By which port and channel the packets from a source to a destination on a virtual network leave a router.
#[derive(Clone, Copy)]
pub(crate) struct Way {
    src: u32,
    dst: u32,
    vn: u8,
    port: u16,
    channel: u8,
}

impl Way {
    // Whether it is a packet's.
    fn is_of(&self, packet: &Packet) -> bool
        ensures { result ≡ goes self.now packet.now }
    {
        packet.src == self.src && packet.dst == self.dst && packet.vn == self.vn
    }
}

/// As many places as there are slots, with no way kept.
pub(crate) fn no_ways(alloc: Global, slots: u32) -> Result<Vec<Option<Way>>, AllocError>
    ensures { IfOk result (λ v. v.items ≡ replicate slots None) }
{
    Vec::from_elem(alloc, None, slots as usize)
}

/// The port and the channel by which a packet in front of a slot's queue leaves. A route is computed only where the slot doesn't
/// keep the packet's way, and is then kept there.
pub(crate) fn way_of(
    set: &RouterSettings,
    ways: &mut [Option<Way>],
    slot: u32,
    packet: &Packet,
) -> (u16, u8)
    requires id { set.now.id < (routes set.now.topology).routers }
    requires flow { IsFlow (routes set.now.topology) (flow_of packet.now) }
    requires ways { AreWays set.now ways.old }
    ensures way { result ≡ way set.now packet.now }
    ensures ways { AreWays set.now ways.new }
{
    let place = slot as usize;
    if place >= ways.len() {
        return set.topology.route(set.id, packet);
    }
    if let Some(kept) = ways[place] {
        if kept.is_of(packet) {
            return (kept.port, kept.channel);
        }
    }
    let (port, channel) = set.topology.route(set.id, packet);
    ways[place] = Some(Way {
        src: packet.src,
        dst: packet.dst,
        vn: packet.vn,
        port,
        channel,
    });
    (port, channel)
}
