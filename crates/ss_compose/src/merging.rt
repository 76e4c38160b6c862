//! The states and the events of the pieces of one cut, each in their order.

ghost use Rattle.std.specs.Prelude.{◌≡◌, [], ◌∷◌, ◌++◌, IfOk, OnOk, Bool, length, map, if◌then◌else◌};
ghost use Rattle.std.specs.List.{flat_map};
ghost use Rattle.ss_graph.specs.Fit.{IsFit};
ghost use Rattle.ss_piece.specs.Pieces.{slip, state_text, event_text};
ghost use Rattle.ss_compose.specs.Compose.{agrees, all_events, all_states, joined, picked, AreApart, Tells, AllTold};

use crate::holders::{holders_of, is_received};
use ss_element::Key;
use ss_graph::Graph;
use ss_piece::Piece;
use std::alloc::{AllocError, Global};

// Whether an event is wanted: one that is with its receiver, or one that isn't.
fn is_wanted(own: bool, received: bool) -> bool
    ensures { result ≡ agrees own received }
{
    if own { received } else { !received }
}

// Adds an event that is wanted.
fn push_if<'a>(
    all: &mut Vec<&'a (Key, Vec<u8>)>,
    event: &'a (Key, Vec<u8>),
    wanted: bool,
) -> Result<(), AllocError>
    ensures { OnOk result (map (λ e. event_text e.now) all.new.items ≡ map (λ e. event_text e.now) all.old.items ++ (if wanted then event_text event.now ∷ [] else [])) }
{
    if wanted {
        all.push(event)?;
    }
    Ok(())
}

// The events of a piece that are with their receivers, or the others.
fn pick<'a>(
    graph: &Graph,
    holders: &[Option<usize>],
    place: usize,
    piece: &'a Piece,
    own: bool,
    all: &mut Vec<&'a (Key, Vec<u8>)>,
) -> Result<(), AllocError>
    requires fit { IsFit graph.now }
    requires told { Tells (length graph.now.components) holders.now place (slip piece.now).states }
    ensures { OnOk result (map (λ e. event_text e.now) all.new.items ≡ map (λ e. event_text e.now) all.old.items ++ picked graph.now own (slip piece.now)) }
{
    for event in &piece.events {
        let received = is_received(graph, holders, place, event.0);
        push_if(all, event, is_wanted(own, received))?;
    }
    Ok(())
}

// The same of all pieces.
fn pick_all<'a>(
    graph: &Graph,
    holders: &[Option<usize>],
    pieces: &'a [Piece],
    own: bool,
    all: &mut Vec<&'a (Key, Vec<u8>)>,
) -> Result<(), AllocError>
    requires fit { IsFit graph.now }
    requires told { AllTold (length graph.now.components) holders.now (map slip pieces.now) }
    ensures { OnOk result (map (λ e. event_text e.now) all.new.items ≡ map (λ e. event_text e.now) all.old.items ++ flat_map (picked graph.now own) (map slip pieces.now)) }
{
    for place in 0..pieces.len() {
        pick(graph, holders, place, &pieces[place], own, all)?;
    }
    Ok(())
}

/// The events of all pieces by their keys. Of equal keys those come first that are with their receivers: these were there
/// before the others were sent.
pub fn events_of<'a>(
    alloc: Global,
    graph: &Graph,
    pieces: &'a [Piece],
) -> Result<Vec<&'a (Key, Vec<u8>)>, AllocError>
    requires fit { IsFit graph.now }
    requires apart { AreApart (map slip pieces.now) }
    ensures { IfOk result (λ v. map (λ e. event_text e.now) v.items ≡ all_events graph.now (map slip pieces.now)) }
{
    let holders = holders_of(alloc, graph.components.as_slice().len(), pieces)?;
    let mut all = Vec::new(alloc);
    pick_all(graph, &holders, pieces, true, &mut all)?;
    pick_all(graph, &holders, pieces, false, &mut all)?;
    all.sort_by_key(|event| event.0)?;
    Ok(all)
}

// The states of a piece.
fn gather<'a>(piece: &'a Piece, all: &mut Vec<&'a (u32, Vec<u8>)>) -> Result<(), AllocError>
    ensures { OnOk result (map (λ x. state_text x.now) all.new.items ≡ map (λ x. state_text x.now) all.old.items ++ (slip piece.now).states) }
{
    for state in &piece.states {
        all.push(state)?;
    }
    Ok(())
}

// The states of all pieces.
fn gather_all<'a>(pieces: &'a [Piece], all: &mut Vec<&'a (u32, Vec<u8>)>) -> Result<(), AllocError>
    ensures { OnOk result (map (λ x. state_text x.now) all.new.items ≡ map (λ x. state_text x.now) all.old.items ++ joined (map slip pieces.now)) }
{
    for piece in pieces {
        gather(piece, all)?;
    }
    Ok(())
}

/// The states of all pieces by the numbers of their components.
pub fn states_of<'a>(
    alloc: Global,
    pieces: &'a [Piece],
) -> Result<Vec<&'a (u32, Vec<u8>)>, AllocError>
    ensures { IfOk result (λ v. map (λ x. state_text x.now) v.items ≡ all_states (map slip pieces.now)) }
{
    let mut all = Vec::new(alloc);
    gather_all(pieces, &mut all)?;
    all.sort_by_key(|state| state.0)?;
    Ok(all)
}
