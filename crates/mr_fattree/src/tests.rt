//! Rows that are known from elsewhere, and texts that are no shapes.

ghost use Rattle.std.specs.Prelude.{◌≡◌};
ghost use Rattle.mr_topo.specs.Routes.{flow_of};

use crate::FatTree;
use mr_flow::{Packet, Peer, ShapeFault};

fn packet(dst: u32) -> Packet
    ensures { flow_of result ≡ record { src = 0; dst = dst; vn = 0 } }
{
    Packet {
        src: 0,
        dst,
        vn: 0,
        flits: 1,
        seq: 0,
        born: 0,
        tag: 0,
    }
}

#[test]
fn a_packet_goes_up_and_down(rt: HostRuntime) -> Result<(), ShapeFault> {
    let tree = FatTree::read(rt.alloc(), b"2,2:4")?;
    assert_eq!(rt; tree.routers(), 6);
    assert_eq!(rt; tree.endpoints(), 8);
    assert_eq!(rt; tree.ports(0), 4);
    assert_eq!(rt; tree.route(0, &packet(7)), (3, 0));
    assert_eq!(rt; tree.peer(0, 3), Some(Peer::Router { id: 5, port: 0 }));
    assert_eq!(rt; tree.route(5, &packet(7)), (3, 0));
    assert_eq!(rt; tree.ports(5), 4);
    assert_eq!(rt; tree.peer(5, 3), Some(Peer::Router { id: 3, port: 3 }));
    assert_eq!(rt; tree.route(3, &packet(7)), (1, 0));
    assert_eq!(rt; tree.ports(3), 4);
    assert_eq!(rt; tree.peer(3, 1), Some(Peer::Host { id: 7 }));
    Ok(())
}

#[test]
fn texts_that_are_no_shapes(rt: HostRuntime) {
    let texts: [&[u8]; 10] = [
        b"",
        b"2,2",
        b"2,2:",
        b"2:4",
        b"2,2,4",
        b"2,02:4",
        b"2,0:4",
        b"129",
        b"1,1:1,1:1,1:1,1:1",
        b"128,1:33",
    ];
    for text in texts {
        let fault = match FatTree::read(rt.alloc(), text) {
            Ok(_) => None,
            Err(fault) => Some(fault),
        };
        assert_eq!(rt; fault, Some(ShapeFault::Form));
    }
}
