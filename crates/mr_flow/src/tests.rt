//! What no clause says.

use super::*;
use ss_element::{Payload, RestoreFault};
use ss_wire::{Reader, Writer};
use std::test::Fail;

fn crosses<T: Send + Sync + Drop>(_value: T) {}

fn packet(seq: u64) -> Packet {
    Packet {
        src: 0,
        dst: 1,
        vn: 0,
        flits: 3,
        seq,
        born: 0,
        tag: 0,
    }
}

#[test]
fn credits_are_taken_and_given(rt: HostRuntime) -> Result<(), AllocError> {
    let mut credits = Credits::new(rt.alloc(), 2, 5)?;
    assert!(rt; credits.channels() == 2);
    assert!(rt; !credits.take(1, 6));
    assert_eq!(rt; credits.left(1), 5);
    assert!(rt; credits.take(1, 4));
    assert_eq!(rt; credits.left(1), 1);
    assert_eq!(rt; credits.left(0), 5);
    crosses(credits);
    Ok(())
}

// Adds a packet where there is room for it.
fn added(queue: &mut Queue, seq: u64) -> Result<bool, AllocError> {
    let p = packet(seq);
    if queue.room() < p.flits {
        return Ok(false);
    }
    queue.add(p)?;
    Ok(true)
}

#[test]
fn queues_count_flits(rt: HostRuntime) -> Result<(), AllocError> {
    let mut queue = Queue::new(rt.alloc(), 8);
    for (seq, is_added) in [(0, true), (1, true), (2, false)] {
        assert_eq!(rt; added(&mut queue, seq)?, is_added);
    }
    assert_eq!(rt; queue.flits(), 6);
    assert_eq!(rt; queue.take(), Some(packet(0)));
    assert_eq!(rt; queue.head(), Some(packet(1)));
    assert_eq!(rt; queue.room(), 5);
    crosses(queue);
    Ok(())
}

#[test]
fn an_end_of_a_line(rt: HostRuntime) -> Result<(), AllocError> {
    let mut end = LineEnd::new(rt.alloc(), 2, 8, 8, 3, 10)?;
    let p = packet(4);
    assert!(rt; end.channels() == 2);
    if p.flits <= end.output(1).room() {
        end.queue(1, p)?;
    }
    assert!(rt; end.channels() == 2);
    if p.flits <= end.input(0).room() {
        end.arrive(NetLoad::Packet {
            channel: 0,
            packet: p,
        })?;
    }
    assert_eq!(rt; end.pump(5), Some((1, p, 30)));
    assert!(rt; end.channels() == 2);
    assert_eq!(rt; end.take(0), Some(p));
    assert!(rt; end.is_idle());
    crosses(end);
    Ok(())
}

#[test]
fn what_is_saved_may_be_too_much(rt: HostRuntime) -> Result<(), Fail> {
    let mut queue = Queue::new(rt.alloc(), 8);
    for seq in 0..2 {
        assert!(rt; added(&mut queue, seq)?);
    }
    let mut out = Writer::new(rt.alloc());
    queue.save(&mut out)?;
    let bytes = out.finish();
    assert_eq!(rt; bytes.len(), 78);
    let bounds = Bounds {
        endpoints: 2,
        vns: 1,
        least: 3,
    };
    let mut small = Queue::new(rt.alloc(), 4);
    small.restore(&mut Reader::new(&bytes, 0))?;
    assert_eq!(rt; small.flits(), 6);
    assert_eq!(rt; small.room(), 0);
    assert!(rt; !small.fits(bounds, 0, 9));
    assert!(rt; queue.fits(bounds, 0, 9));
    assert!(rt; !queue.fits(bounds, 1, 9));
    let short = queue.restore(&mut Reader::new(&bytes, 77));
    assert_eq!(rt; short, Err(RestoreFault::Short { at: 77 }));
    Ok(())
}

#[test]
fn loads_are_read_back(rt: HostRuntime) -> Result<(), Fail> {
    let net = Load::Net(NetLoad::Packet {
        channel: 1,
        packet: packet(7),
    });
    let mut out = Writer::new(rt.alloc());
    net.save(&mut out)?;
    Load::Core { n: 258 }.save(&mut out)?;
    assert_eq!(rt; net.weight(), Some((true, 1, 3)));
    let bytes = out.finish();
    let mut reader = Reader::new(&bytes, 0);
    assert_eq!(rt; read_net_load(&mut reader)?, net);
    assert_eq!(rt; read_core_load(&mut reader)?, Load::Core { n: 258 });
    assert_eq!(rt;
        read_net_load(&mut Reader::new(&bytes, 1)),
        Ok(Load::Net(NetLoad::Credit {
            channel: 0,
            flits: 0
        }))
    );
    Ok(())
}
