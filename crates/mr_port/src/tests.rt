//! Packets over a port of two channels.

use super::*;

fn crosses<T: Send + Sync + Drop>(_value: T) {}

fn packet(seq: u64) -> Packet {
    Packet {
        src: 0,
        dst: 1,
        vn: 0,
        flits: 2,
        seq,
        born: 0,
        tag: 0,
    }
}

// Puts a packet at the back of a channel's output queue, where there is room for it.
fn queued(port: &mut PortControl, channel: u8, seq: u64) -> Result<(), AllocError> {
    let p = packet(seq);
    if u16::from(channel) < port.channels() && p.flits <= port.room(channel) {
        port.queue(channel, p)?;
    }
    Ok(())
}

#[test]
fn channels_take_turns(rt: HostRuntime) -> Result<(), AllocError> {
    let mut port = PortControl::new(rt.alloc(), 2, 8, 8, 4, 10)?;
    for (channel, seq) in [(0, 0), (0, 1), (1, 2), (0, 3)] {
        queued(&mut port, channel, seq)?;
    }
    assert_eq!(rt; port.pump(0), Some((0, packet(0), 20)));
    assert_eq!(rt; port.pump(19), None);
    assert_eq!(rt; port.pump(20), Some((1, packet(2), 20)));
    assert_eq!(rt; port.pump(40), Some((0, packet(1), 20)));
    // The credits of channel 0 are used up.
    assert_eq!(rt; port.pump(60), None);
    assert_eq!(rt; port.waiting(), 1);
    crosses(port);
    Ok(())
}

#[test]
fn a_packet_comes_in(rt: HostRuntime) -> Result<(), AllocError> {
    let mut port = PortControl::new(rt.alloc(), 1, 8, 8, 4, 10)?;
    assert!(rt; port.channels() == 1);
    assert_eq!(rt; port.head(0), None);
    let p = packet(7);
    if p.flits <= port.input(0).room() {
        port.arrive(NetLoad::Packet {
            channel: 0,
            packet: p,
        })?;
    }
    assert!(rt; port.channels() == 1);
    assert_eq!(rt; port.head(0), Some(p));
    assert_eq!(rt; port.take_head(0), Some(p));
    assert!(rt; port.is_idle());
    Ok(())
}
