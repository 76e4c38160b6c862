//! Rows that are known from elsewhere, and texts that are no shapes.

ghost use Rattle.std.specs.Prelude.{◌≡◌};
ghost use Rattle.mr_topo.specs.Routes.{flow_of};

use crate::{Mesh, Single, Torus};
use mr_flow::{Packet, Peer, ShapeFault};

fn packet(src: u32, dst: u32) -> Packet
    ensures { flow_of result ≡ record { src = src; dst = dst; vn = 0 } }
{
    Packet {
        src,
        dst,
        vn: 0,
        flits: 1,
        seq: 0,
        born: 0,
        tag: 0,
    }
}

#[test]
fn routes_of_a_torus(rt: HostRuntime) -> Result<(), ShapeFault> {
    let torus = Torus::read(rt.alloc(), b"4x4", 1)?;
    assert_eq!(rt; torus.routers(), 16);
    assert_eq!(rt; torus.endpoints(), 16);
    assert_eq!(rt; torus.ports(0), 5);
    assert_eq!(rt; torus.route(0, &packet(0, 2)), (0, 0));
    assert_eq!(rt; torus.route(3, &packet(3, 0)), (0, 1));
    assert_eq!(rt; torus.peer(3, 0), Some(Peer::Router { id: 0, port: 1 }));
    Ok(())
}

#[test]
fn edges_of_a_mesh(rt: HostRuntime) -> Result<(), ShapeFault> {
    let mesh = Mesh::read(rt.alloc(), b"3x2", 2)?;
    assert_eq!(rt; mesh.endpoints(), 12);
    assert_eq!(rt; mesh.peer(2, 0), None);
    assert_eq!(rt; mesh.peer(2, 2), Some(Peer::Router { id: 5, port: 3 }));
    assert_eq!(rt; mesh.peer(5, 5), Some(Peer::Host { id: 11 }));
    assert_eq!(rt; mesh.route(5, &packet(11, 1)), (1, 0));
    Ok(())
}

#[test]
fn ports_of_one_router(rt: HostRuntime) {
    let single = Single::new(4);
    assert_eq!(rt; single.route(0, &packet(1, 3)), (3, 0));
    assert_eq!(rt; single.peer(0, 3), Some(Peer::Host { id: 3 }));
}

#[test]
fn texts_that_are_no_shapes(rt: HostRuntime) {
    let texts: [&[u8]; 9] = [
        b"",
        b"4x",
        b"x4",
        b"04x4",
        b"1x4",
        b"257",
        b"4X4",
        b"2x2x2x2x2",
        b"256x256",
    ];
    for text in texts {
        let fault = match Torus::read(rt.alloc(), text, 1) {
            Ok(_) => None,
            Err(fault) => Some(fault),
        };
        assert_eq!(rt; fault, Some(ShapeFault::Form));
    }
}
