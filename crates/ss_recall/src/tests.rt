//! The bytes of a small checkpoint, whole and with faults.

use crate::{RecallFault, Recalled, recall};
use ss_ckpt::CkptFault;
use ss_element::ARRIVAL;
use ss_library::Any;
use ss_restart::RestartFault;
use ss_wire::Writer;
use std::alloc::{AllocError, Global};
use std::test::Fail;

/// A graph text of 264 bytes: a pinger that sends three times, and its echo.
const GRAPH: &[u8] =
    b"{\"components\":[{\"name\":\"ping\",\"type\":\"core.pinger\",\"params\":{\"count\":3}},{\"name\":\"echo\",\"type\":\"core.echo\",\"params\":{}}],\"links\":[{\"name\":\"wire\",\"left\":{\"component\":\"ping\",\"port\":\"port\",\"latency\":\"1ns\"},\"right\":{\"component\":\"echo\",\"port\":\"port\",\"latency\":\"1ns\"}}]}";

/// An arrival at 5000 on a line.
fn arrival(out: &mut Writer, line: u32, number: u32) -> Result<(), AllocError> {
    out.u64(5000)?;
    out.u8(2)?;
    out.u32(line)?;
    out.u32(number)
}

/// The bytes of a checkpoint of that graph at 5000: the pinger sent 3 and got 2, the last event was at 4000, and numbers are to
/// arrive on these lines.
fn checkpoint(alloc: Global, count: u32, events: &[(u32, u32)]) -> Result<Vec<u8>, AllocError> {
    let mut out = Writer::new(alloc);
    out.bytes(b"SSTCKPT1".as_slice())?;
    out.u64(5000)?;
    out.u64(4000)?;
    out.u32(264)?;
    out.bytes(GRAPH)?;
    out.u32(3)?;
    out.u32(2)?;
    out.u64(4000)?;
    out.u32(count)?;
    for (line, number) in events {
        arrival(&mut out, *line, *number)?;
    }
    Ok(out.finish())
}

/// The bytes with others from a place on.
fn edited(alloc: Global, bytes: &[u8], at: usize, others: &[u8]) -> Result<Vec<u8>, AllocError> {
    let mut all = Vec::new(alloc);
    for (i, byte) in bytes.iter().enumerate() {
        let other = if i < at { None } else { others.get(i - at) };
        all.push(*other.unwrap_or(byte))?;
    }
    Ok(all)
}

/// The numbers of components, links and events, the time and that of the last handled event.
fn sizes(recalled: &Recalled) -> (usize, usize, usize, u64, u64) {
    (
        recalled.graph.components.as_slice().len(),
        recalled.graph.links.as_slice().len(),
        recalled.saved.events.len(),
        recalled.saved.time,
        recalled.saved.last,
    )
}

/// The sizes of what bytes are recalled as.
fn recalled(alloc: Global, bytes: &[u8]) -> Result<(usize, usize, usize, u64, u64), RecallFault> {
    let recalled = recall(alloc, bytes)?;
    Ok(sizes(&recalled))
}

/// What the first component, a pinger, sent and got, and when it sent the last.
fn pinged(recalled: &Recalled) -> Option<(u32, u32, u64)> {
    match recalled.saved.model.elements.first() {
        Some(Any::Pinger(pinger)) => Some((pinger.sent, pinger.got, pinger.at)),
        _ => None,
    }
}

/// The key of the first event.
fn coming(recalled: &Recalled) -> Option<(u64, u8, u32)> {
    let event = recalled.saved.events.first()?;
    Some((event.key.time, event.key.class, event.key.line))
}

#[test]
fn a_checkpoint_is_recalled(rt: HostRuntime) -> Result<(), Fail> {
    let alloc = rt.alloc();
    let bytes = checkpoint(alloc, 1, &[(0, 3)])?;
    assert_eq!(rt; bytes.len(), 329);
    let recalled = recall(alloc, bytes.as_slice())?;
    assert_eq!(rt; sizes(&recalled), (2, 1, 1, 5000, 4000));
    assert_eq!(rt; pinged(&recalled), Some((3, 2, 4000)));
    assert_eq!(rt; coming(&recalled), Some((5000, ARRIVAL, 0)));
    Ok(())
}

/// Where the field begins that ends behind byte `n`.
fn field_at(n: usize) -> u64 {
    for at in [325, 321, 320, 312, 308, 300, 296, 292, 28, 24, 16, 8] {
        if n as u64 >= at {
            return at;
        }
    }
    0
}

#[test]
fn bytes_that_are_cut_off_are_short(rt: HostRuntime) -> Result<(), Fail> {
    let alloc = rt.alloc();
    let bytes = checkpoint(alloc, 1, &[(0, 3)])?;
    for n in 0..bytes.len() {
        assert_eq!(rt;
            recalled(alloc, &bytes[..n]),
            Err(RecallFault::Form(CkptFault::Short { at: field_at(n) }))
        );
    }
    Ok(())
}

#[test]
fn the_first_fault_is_told(rt: HostRuntime) -> Result<(), Fail> {
    let alloc = rt.alloc();
    let bytes = checkpoint(alloc, 1, &[(0, 3)])?;
    for (at, others, fault) in [
        (0, b"\x00".as_slice(), RecallFault::Form(CkptFault::Magic)),
        (7, b"9".as_slice(), RecallFault::Form(CkptFault::Form)),
        (
            14,
            b"\x00\x00".as_slice(),
            RecallFault::Form(CkptFault::Value { at: 8 }),
        ),
        (
            22,
            b"\x13\x88".as_slice(),
            RecallFault::Form(CkptFault::Value { at: 16 }),
        ),
        (
            24,
            b"\x04\x00\x00\x01".as_slice(),
            RecallFault::Form(CkptFault::Value { at: 24 }),
        ),
        (
            28,
            b"[".as_slice(),
            RecallFault::Form(CkptFault::Value { at: 28 }),
        ),
        (
            66,
            b"core.binger".as_slice(),
            RecallFault::Form(CkptFault::Value { at: 28 }),
        ),
        (
            320,
            b"\x03".as_slice(),
            RecallFault::Form(CkptFault::Value { at: 320 }),
        ),
        (
            321,
            b"\x00\x00\x00\x03".as_slice(),
            RecallFault::Form(CkptFault::Value { at: 321 }),
        ),
        (
            318,
            b"\x13\x87".as_slice(),
            RecallFault::State(RestartFault::Time { event: 0 }),
        ),
        (
            292,
            b"\x00\x00\x00\x04".as_slice(),
            RecallFault::State(RestartFault::Element { component: 0 }),
        ),
    ] {
        let edited = edited(alloc, bytes.as_slice(), at, others)?;
        assert_eq!(rt; recalled(alloc, edited.as_slice()), Err(fault), "at {at}");
    }
    Ok(())
}

#[test]
fn events_stand_in_order_up_to_the_end(rt: HostRuntime) -> Result<(), Fail> {
    let alloc = rt.alloc();
    let both = checkpoint(alloc, 2, &[(0, 3), (1, 1)])?;
    assert_eq!(rt; recalled(alloc, both.as_slice()), Ok((2, 1, 2, 5000, 4000)));
    let swapped = checkpoint(alloc, 2, &[(1, 1), (0, 3)])?;
    assert_eq!(rt;
        recalled(alloc, swapped.as_slice()),
        Err(RecallFault::Form(CkptFault::Order { at: 329 }))
    );
    let mut more = checkpoint(alloc, 1, &[(0, 3)])?;
    more.push(0)?;
    assert_eq!(rt;
        recalled(alloc, more.as_slice()),
        Err(RecallFault::Form(CkptFault::Trailing { at: 329 }))
    );
    Ok(())
}
