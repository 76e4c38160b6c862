//! The one spelling that the pieces of a cut make together.

ghost use Rattle.std.specs.Prelude.{◌≡◌, ◌≤◌, ◌<◌, ◌^◌, ◌-◌, ◌++◌, OnOk, OnErr, ℕ, length, map, min, sum_by};
ghost use Rattle.std.specs.List.{flat_map};
ghost use Rattle.ss_graph.specs.Fit.{IsFit};
ghost use Rattle.ss_piece.specs.Pieces.{slip, state_text, event_text};
ghost use Rattle.ss_ckpt.specs.Spells.{head_text};
ghost use Rattle.ss_compose.specs.Compose.{AreApart, all_events, all_states, bytes_of, composed, event_bytes, last_of, slip_size};

use crate::merging::{events_of, states_of};
use ss_element::Key;
use ss_graph::Graph;
use ss_piece::Piece;
use ss_wire::Writer;
use std::alloc::{AllocError, Global};

/// What a checkpoint's bytes begin with: the letters and the number of its form.
const MARK: [u8; 8] = *b"SSTCKPT1";

/// How many bytes a head has beside its graph text, with the number of events.
const FIXED: u64 = 32;

/// How many bytes an event has beside its load.
const KEY: u64 = 13;

// The time of the last handled event.
fn last_of(pieces: &[Piece]) -> u64
    ensures { result ≡ last_of (map slip pieces.now) }
{
    let mut last = 0;
    for piece in pieces {
        last = piece.last.max(last);
    }
    last
}

// Writes a head.
fn write_head(text: &[u8], at: u64, last: u64, out: &mut Writer) -> Result<(), AllocError>
    requires few { length text.now < 2 ^ 32 }
    ensures { OnOk result (out.new ≡ out.old ++ head_text text.now at last) }
{
    out.bytes(&MARK)?;
    out.u64(at)?;
    out.u64(last)?;
    out.u32(text.len() as u32)?;
    out.bytes(text)?;
    Ok(())
}

// Writes states.
fn write_states(states: &[&(u32, Vec<u8>)], out: &mut Writer) -> Result<(), AllocError>
    ensures { OnOk result (out.new ≡ out.old ++ flat_map bytes_of (map (λ x. state_text x.now) states.now)) }
{
    for state in states {
        out.bytes(&state.1)?;
    }
    Ok(())
}

// Writes an event.
fn write_event(event: &(Key, Vec<u8>), out: &mut Writer) -> Result<(), AllocError>
    ensures { OnOk result (out.new ≡ out.old ++ event_bytes (event_text event.now)) }
{
    out.u64(event.0.time)?;
    out.u8(event.0.class)?;
    out.u32(event.0.line)?;
    out.bytes(&event.1)?;
    Ok(())
}

// Writes events.
fn write_events(events: &[&(Key, Vec<u8>)], out: &mut Writer) -> Result<(), AllocError>
    ensures { OnOk result (out.new ≡ out.old ++ flat_map event_bytes (map (λ e. event_text e.now) events.now)) }
{
    for event in events {
        write_event(event, out)?;
    }
    Ok(())
}

// Writes all.
fn write_all(
    alloc: Global,
    graph: &Graph,
    at: u64,
    pieces: &[Piece],
    out: &mut Writer,
) -> Result<(), AllocError>
    requires fit { IsFit graph.now }
    requires apart { AreApart (map slip pieces.now) }
    requires text { length graph.now.text < 2 ^ 32 }
    requires few { length (all_events graph.now (map slip pieces.now)) < 2 ^ 32 }
    ensures { OnOk result (out.new ≡ out.old ++ composed graph.now at (map slip pieces.now)) }
{
    let states = states_of(alloc, pieces)?;
    let events = events_of(alloc, graph, pieces)?;
    write_head(graph.text.as_slice(), at, last_of(pieces), out)?;
    write_states(&states, out)?;
    out.u32(events.len() as u32)?;
    write_events(&events, out)?;
    Ok(())
}

/// Appends the checkpoint at the time `at`, in picoseconds, that the pieces of one cut make: the head with the graph's text
/// and the greatest of the pieces' times, the states by the numbers of their components, and the events by their keys. Of
/// events of equal keys those come first whose receiver's state is in their own piece, since they were there before a sender
/// in another part made more of them. It needs a graph that was read, pieces with no component in two of them, and a
/// checkpoint of at most 2^30 bytes. It fails only where no memory is left, and `out` is then as before. The form is this
/// project's own.
pub fn compose(
    alloc: Global,
    graph: &Graph,
    at: u64,
    pieces: &[Piece],
    out: &mut Vec<u8>,
) -> Result<(), AllocError>
    requires fit { IsFit graph.now }
    requires apart { AreApart (map slip pieces.now) }
    requires small { length (composed graph.now at (map slip pieces.now)) ≤ 2 ^ 30 }
    ensures ok { OnOk result (out.new.items ≡ out.old.items ++ composed graph.now at (map slip pieces.now)) }
    ensures err { OnErr result (out.new.items ≡ out.old.items) }
{
    let mut text = Writer::new(alloc);
    write_all(alloc, graph, at, pieces, &mut text)?;
    let text = text.finish();
    out.extend_from_slice(&text)
}

// How many bytes the states of a piece have, as far as a number of 64 bits tells.
fn states_size(piece: &Piece) -> u64
    ensures { result ≡ min (sum_by (λ x. length (bytes_of x)) (slip piece.now).states) (2 ^ 64 - 1) }
{
    let mut total = 0u64;
    for state in &piece.states {
        total = total.saturating_add(state.1.len() as u64);
    }
    total
}

// How many bytes its events have.
fn events_size(piece: &Piece) -> u64
    ensures { result ≡ min (sum_by (λ e. length (event_bytes e)) (slip piece.now).events) (2 ^ 64 - 1) }
{
    let mut total = 0u64;
    for event in &piece.events {
        total = total.saturating_add(event.1.len() as u64 + KEY);
    }
    total
}

// How many bytes a piece adds to a checkpoint.
fn piece_size(piece: &Piece) -> u64
    ensures { result ≡ min (slip_size (slip piece.now)) (2 ^ 64 - 1) }
{
    states_size(piece).saturating_add(events_size(piece))
}

// How many bytes the pieces add.
fn pieces_size(pieces: &[Piece]) -> u64
    ensures { result ≡ min (sum_by slip_size (map slip pieces.now)) (2 ^ 64 - 1) }
{
    let mut total = 0u64;
    for piece in pieces {
        total = total.saturating_add(piece_size(piece));
    }
    total
}

/// How many bytes the checkpoint has that these pieces make, at whatever time; at most 2^64 - 1. It takes no memory.
pub fn length(graph: &Graph, pieces: &[Piece]) -> u64
    ensures { (at : ℕ) → result ≡ min (length (composed graph.now at (map slip pieces.now))) (2 ^ 64 - 1) }
{
    let head = graph.text.as_slice().len() as u64 + FIXED;
    head.saturating_add(pieces_size(pieces))
}
