//! Which piece has the state of a component.

ghost use Rattle.std.specs.Prelude.{◌≡◌, ◌<◌, IfOk, OnOk, ℕ, List, length, map, slice_get, slice_set, slice_index_or, Some, None, if◌then◌else◌};
ghost use Rattle.ss_graph.specs.Fit.{IsFit};
ghost use Rattle.ss_piece.specs.Pieces.{slip, Slip, state_text};
ghost use Rattle.ss_compose.specs.Compose.{has_state, is_link, is_received, holder_upto, is_place, AreApart, Tells, AllTold};

use ss_element::{ARRIVAL, Key};
use ss_graph::Graph;
use ss_piece::Piece;
use std::alloc::{AllocError, Global};

// Notes a place for a component of the table.
fn put(holders: &mut Vec<Option<usize>>, component: usize, place: usize)
    ensures { holders.new.items ≡ slice_set holders.old.items component (Some place) }
{
    if component < holders.len() {
        holders[component] = Some(place);
    }
}

// Notes a place for each of a piece's components.
fn note(holders: &mut Vec<Option<usize>>, place: usize, states: &[(u32, Vec<u8>)])
    ensures len { length holders.new.items ≡ length holders.old.items }
    ensures noted { (c : ℕ) → c < length holders.old.items → slice_index_or holders.new.items c None ≡ (if has_state (map state_text states.now) c then Some place else slice_index_or holders.old.items c None) }
{
    for (number, _) in states {
        put(holders, *number as usize, place);
    }
}

// The places of the pieces that have the components' states, for so many components.
fn noted(alloc: Global, count: usize, pieces: &[Piece]) -> Result<Vec<Option<usize>>, AllocError>
    ensures { IfOk result (λ v. (c : ℕ) → c < count → slice_index_or v.items c None ≡ holder_upto (length pieces.now) (map slip pieces.now) c) }
{
    let mut holders = vec![in alloc; None; count]?;
    for place in 0..pieces.len() {
        note(&mut holders, place, &pieces[place].states);
    }
    Ok(holders)
}

/// The places of the pieces that have the components' states, for so many components.
pub fn holders_of(
    alloc: Global,
    count: usize,
    pieces: &[Piece],
) -> Result<Vec<Option<usize>>, AllocError>
    requires apart { AreApart (map slip pieces.now) }
    ensures { IfOk result (λ v. AllTold count v.items (map slip pieces.now)) }
{
    let holders = noted(alloc, count, pieces)?;
    Ok(holders)
}

// Whether an event with this key comes on a line of a link.
fn is_link(graph: &Graph, key: Key) -> bool
    requires fit { IsFit graph.now }
    ensures { result ≡ is_link graph.now key }
{
    key.class == ARRIVAL && (key.line as usize) < 2 * graph.links.as_slice().len()
}

// Whether the piece at a place has a component's state.
fn is_held(holders: &[Option<usize>], place: usize, component: u32) -> bool
    ensures { result ≡ is_place place (slice_index_or holders.now component None) }
{
    match holders.get(component as usize) {
        Some(Some(holder)) => *holder == place,
        _ => false,
    }
}

/// Whether an event of the piece at a place is with its receiver. A link's line leads from one component to another, whose
/// states may be in two pieces; every other event is made by its receiver.
pub fn is_received(graph: &Graph, holders: &[Option<usize>], place: usize, key: Key) -> bool
    requires fit { IsFit graph.now }
    ensures { (states : List (ℕ × List ℕ)) → Tells (length graph.now.components) holders.now place states → result ≡ is_received graph.now states key }
{
    if !is_link(graph, key) {
        return true;
    }
    let (_, receiver) = graph.line_ends(key.line);
    is_held(holders, place, receiver)
}
