//! Packets over a link of one virtual network.

use super::*;
use mr_flow::NetLoad;
use std::alloc::AllocError;

fn crosses<T: Send + Sync + Drop>(_value: T) {}

fn packet(flits: u32) -> Packet {
    Packet {
        src: 0,
        dst: 1,
        vn: 0,
        flits,
        seq: 0,
        born: 0,
        tag: 0,
    }
}

// What became of a packet of virtual network 0.
fn sent(link: &mut LinkControl, flits: u32) -> Option<Result<(), SendBack>> {
    let p = packet(flits);
    if u16::from(p.vn) >= link.networks() {
        return None;
    }
    Some(link.send(p))
}

// Lets a load of virtual network 0 arrive, where there is room for it.
fn arrives(link: &mut LinkControl, load: NetLoad) -> Result<(), AllocError> {
    if link.networks() == 0 {
        return Ok(());
    }
    match load {
        NetLoad::Packet { channel: _, packet } => {
            if packet.flits <= link.input(0).room() {
                link.arrive(NetLoad::Packet { channel: 0, packet })?;
            }
        }
        NetLoad::Credit { channel: _, flits } => {
            if flits <= u32::MAX - link.credits(0) {
                link.arrive(NetLoad::Credit { channel: 0, flits })?;
            }
        }
    }
    Ok(())
}

#[test]
fn eight_flits_out_and_eight_credits(rt: HostRuntime) -> Result<(), AllocError> {
    let mut link = LinkControl::new(rt.alloc(), 1, 8, 8, 8, 1000)?;
    assert_eq!(rt; sent(&mut link, 8), Some(Ok(())));
    assert_eq!(rt; sent(&mut link, 1), Some(Err(SendBack::Busy(packet(1)))));
    assert_eq!(rt; link.pump(0), Some((0, packet(8), 8000)));
    assert_eq!(rt; sent(&mut link, 1), Some(Ok(())));
    assert_eq!(rt; link.pump(7999), None);
    assert_eq!(rt; link.pump(8000), None);
    arrives(
        &mut link,
        NetLoad::Credit {
            channel: 0,
            flits: 8,
        },
    )?;
    assert_eq!(rt; link.pump(8000), Some((0, packet(1), 1000)));
    assert!(rt; link.is_idle());
    crosses(link);
    Ok(())
}

#[test]
fn packets_are_received_in_order(rt: HostRuntime) -> Result<(), AllocError> {
    let mut link = LinkControl::new(rt.alloc(), 1, 8, 8, 8, 1000)?;
    for flits in [3, 5] {
        arrives(
            &mut link,
            NetLoad::Packet {
                channel: 0,
                packet: packet(flits),
            },
        )?;
    }
    assert!(rt; link.networks() == 1);
    assert_eq!(rt; link.input(0).room(), 0);
    assert_eq!(rt; link.receive(0), Some(packet(3)));
    assert_eq!(rt; link.receive(0), Some(packet(5)));
    assert_eq!(rt; link.receive(0), None);
    Ok(())
}

#[test]
fn settings_cross_threads(rt: HostRuntime) -> Result<(), AllocError> {
    let name = Text::new(rt.alloc(), "n0")?;
    crosses(NicSettings {
        name,
        id: 0,
        peers: 2,
        vns: 1,
        flit_time: 1000,
        input_flits: 8,
        output_flits: 8,
        credits: 8,
        least: 8,
    });
    Ok(())
}
