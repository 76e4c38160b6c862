//! A checkpoint of two pieces, byte by byte.

ghost use Rattle.std.specs.Prelude.{◌≡◌, [], ◌∷◌, IfOk, map};
ghost use Rattle.ss_piece.specs.Pieces.{slip, state_text};
ghost use Rattle.ss_compose.specs.Compose.{AreApart};

use crate::{compose, length};
use ss_element::{ARRIVAL, Key, TICK};
use ss_graph::read;
use ss_piece::Piece;
use std::alloc::{AllocError, Global};
use std::test::Fail;

/// Two components and a link. Line 0 leads from `a` to `b`, and line 1 back.
const TEXT: &str =
    "{\"components\":[{\"name\":\"a\",\"type\":\"x\"},{\"name\":\"b\",\"type\":\"x\"}],\"links\":[{\"name\":\"l\",\"left\":{\"component\":\"a\",\"port\":\"p\",\"latency\":\"1ns\"},\"right\":{\"component\":\"b\",\"port\":\"p\",\"latency\":\"1ns\"}}]}";

/// The letters and the number of the form, the time 6000, that of the last handled event, 5000, and the length of the text.
const HEAD: [u8; 28] = [
    0x53, 0x53, 0x54, 0x43, 0x4B, 0x50, 0x54, 0x31, 0, 0, 0, 0, 0, 0, 0x17, 0x70, 0, 0, 0, 0, 0, 0,
    0x13, 0x88, 0, 0, 0, 0xC0,
];

/// The states of `a` and `b`, the number of events, a tick of line 2 at 6000, and on line 1 at 7000 first what was pending at
/// its receiver, and then what was sent since.
const BODY: [u8; 49] = [
    0xA0, 0xB1, 0xB2, 0xB3, // states
    0, 0, 0, 3, // events
    0, 0, 0, 0, 0, 0, 0x17, 0x70, 1, 0, 0, 0, 2, // the tick
    0, 0, 0, 0, 0, 0, 0x1B, 0x58, 2, 0, 0, 0, 1, 0x11, // what was pending
    0, 0, 0, 0, 0, 0, 0x1B, 0x58, 2, 0, 0, 0, 1, 0x22, // what was sent
];

/// An event's key and the bytes of its load.
fn event(
    alloc: Global,
    time: u64,
    class: u8,
    line: u32,
    load: &[u8],
) -> Result<(Key, Vec<u8>), AllocError> {
    let key = Key { time, class, line };
    Ok((key, load.to_vec(alloc)?))
}

/// A piece with the state of one component.
fn piece(
    alloc: Global,
    component: u32,
    state: &[u8],
    events: Vec<(Key, Vec<u8>)>,
    last: u64,
) -> Result<Piece, AllocError>
    ensures { IfOk result (λ p. map state_text p.states.items ≡ (component, state.now) ∷ []) }
{
    let state = state.to_vec(alloc)?;
    let mut states = Vec::new(alloc);
    states.push((component, state))?;
    Ok(Piece {
        states,
        events,
        last,
    })
}

/// The piece of `b`, which sent on line 1, and the piece of `a`, for which that is.
fn pieces(alloc: Global) -> Result<Vec<Piece>, AllocError>
    ensures { IfOk result (λ v. AreApart (map slip v.items)) }
{
    let mut of_b = Vec::new(alloc);
    of_b.push(event(alloc, 6000, TICK, 2, &[])?)?;
    of_b.push(event(alloc, 7000, ARRIVAL, 1, &[0x22])?)?;
    let mut of_a = Vec::new(alloc);
    of_a.push(event(alloc, 7000, ARRIVAL, 1, &[0x11])?)?;
    let b = piece(alloc, 1, &[0xB1, 0xB2, 0xB3], of_b, 5000)?;
    let a = piece(alloc, 0, &[0xA0], of_a, 4000)?;
    let mut both = Vec::new(alloc);
    both.push(b)?;
    both.push(a)?;
    Ok(both)
}

/// The bytes that they make.
fn expected(alloc: Global) -> Result<Vec<u8>, AllocError> {
    let mut bytes = Vec::new(alloc);
    bytes.extend_from_slice(&HEAD)?;
    bytes.extend_from_slice(TEXT.as_bytes())?;
    bytes.extend_from_slice(&BODY)?;
    Ok(bytes)
}

/// The checkpoint at 6000 that the pieces make, if the text is a graph and they make as many bytes as were counted by hand.
fn checkpoint(alloc: Global) -> Result<Option<Vec<u8>>, AllocError> {
    let Ok(graph) = read(alloc, TEXT.as_bytes()) else {
        return Ok(None);
    };
    let pieces = pieces(alloc)?;
    if length(&graph, &pieces) != 269 {
        return Ok(None);
    }
    let mut bytes = Vec::new(alloc);
    compose(alloc, &graph, 6000, &pieces, &mut bytes)?;
    Ok(Some(bytes))
}

#[test]
fn two_pieces_make_one_checkpoint(rt: HostRuntime) -> Result<(), Fail> {
    let bytes = checkpoint(rt.alloc())?.ok_or("269 bytes")?;
    assert_eq!(rt; bytes.as_slice(), expected(rt.alloc())?.as_slice());
    Ok(())
}
