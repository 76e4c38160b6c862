//! Rows that are known from elsewhere.

ghost use Rattle.std.specs.Prelude.{◌≡◌};

use crate::{ArbKind, Arbiter, Request, Turn};
use std::alloc::{AllocError, Global};
use std::process::Abort;

fn request(slot: u32, input: u16, born: u64) -> Request
    ensures { result ≡ record { slot = slot; input = input; output = 0; born = born } }
{
    Request {
        slot,
        input,
        output: 0,
        born,
    }
}

fn request_for(output: u16, slot: u16) -> Request
    ensures { result ≡ record { slot = slot; input = slot; output = output; born = 0 } }
{
    Request {
        slot: slot as u32,
        input: slot,
        output,
        born: 0,
    }
}

#[test]
fn round_robin_goes_on(rt: HostRuntime) -> Result<(), AllocError> {
    let mut arbiter = Arbiter::new(rt.alloc(), ArbKind::RoundRobin, 4, 1)?;
    let requests = [request(1, 1, 9), request(3, 3, 5)];
    let mut grants = [0];
    arbiter.pick(&requests, &mut grants);
    assert_eq!(rt; grants[0], 1);
    arbiter.pick(&requests, &mut grants);
    assert_eq!(rt; grants[0], 3);
    Ok(())
}

#[test]
fn the_oldest_packet_wins(rt: HostRuntime) -> Result<(), AllocError> {
    let mut arbiter = Arbiter::new(rt.alloc(), ArbKind::Age, 4, 1)?;
    let requests = [request(1, 1, 9), request(3, 3, 5)];
    let mut grants = [0];
    arbiter.pick(&requests, &mut grants);
    assert_eq!(rt; grants[0], 3);
    Ok(())
}

#[test]
fn the_least_recent_slot_wins(rt: HostRuntime) -> Result<(), AllocError> {
    let mut arbiter = Arbiter::new(rt.alloc(), ArbKind::LeastRecent, 4, 1)?;
    let requests = [request(1, 1, 9), request(3, 3, 5)];
    let mut grants = [0];
    arbiter.pick(&requests, &mut grants);
    assert_eq!(rt; grants[0], 1);
    arbiter.pick(&requests, &mut grants);
    assert_eq!(rt; grants[0], 3);
    Ok(())
}

// The slots of the first output in the order of their last use.
fn slots_of(rt: &impl Abort, alloc: Global, arbiter: &Arbiter) -> Result<Vec<u32>, AllocError> {
    match arbiter.turns().first() {
        Some(Turn::LeastRecent(order)) => order.to_slots(alloc),
        _ => panic!(rt; "least recently used"),
    }
}

#[test]
#[tactic(auto, using(crate::proofs::Picking::length_picks))]
fn slots_in_the_order_of_their_use(rt: HostRuntime) -> Result<(), AllocError> {
    let mut arbiter = Arbiter::new(rt.alloc(), ArbKind::LeastRecent, 4, 1)?;
    let mut grants = [0];
    let rounds = [
        (1, [0, 2, 3, 1]),
        (3, [0, 2, 1, 3]),
        (3, [0, 2, 1, 3]),
        (0, [2, 1, 3, 0]),
        (1, [2, 3, 0, 1]),
        (2, [3, 0, 1, 2]),
    ];
    for (slot, slots) in rounds {
        assert!(rt; slot < 4);
        arbiter.pick(&[request(slot, 0, 0)], &mut grants);
        assert_eq!(rt;
            slots_of(&rt, rt.alloc(), &arbiter)?.as_slice(),
            slots.as_slice()
        );
    }
    arbiter.pick(&[request(1, 0, 0), request(0, 1, 0)], &mut grants);
    assert_eq!(rt; grants[0], 0);
    Ok(())
}

#[test]
fn an_arbiter_goes_on(rt: HostRuntime) -> Result<(), AllocError> {
    let mut turns = Vec::new(rt.alloc());
    turns.push(Turn::RoundRobin(2))?;
    let mut arbiter = Arbiter::of_turns(rt.alloc(), 4, turns)?;
    let mut grants = [0];
    arbiter.pick(&[request(1, 1, 9), request(3, 3, 5)], &mut grants);
    assert_eq!(rt; grants[0], 3);
    Ok(())
}

#[test]
fn each_output_has_its_own_requests(rt: HostRuntime) -> Result<(), AllocError> {
    let mut arbiter = Arbiter::new(rt.alloc(), ArbKind::RoundRobin, 4, 3)?;
    let requests = [
        request_for(2, 0),
        request_for(0, 1),
        request_for(2, 2),
        request_for(0, 3),
    ];
    let mut grants = [9, 9, 9];
    arbiter.pick(&requests, &mut grants);
    assert_eq!(rt; grants, [1, u32::MAX, 0]);
    arbiter.pick(&requests, &mut grants);
    assert_eq!(rt; grants, [3, u32::MAX, 2]);
    Ok(())
}

#[test]
fn more_requests_than_slots(rt: HostRuntime) -> Result<(), AllocError> {
    let mut arbiter = Arbiter::new(rt.alloc(), ArbKind::RoundRobin, 2, 2)?;
    let requests = [request_for(1, 0), request_for(0, 1), request_for(1, 1)];
    let mut grants = [9, 9];
    arbiter.pick(&requests, &mut grants);
    assert_eq!(rt; grants, [1, 0]);
    Ok(())
}
