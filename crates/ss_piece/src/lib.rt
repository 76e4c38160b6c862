//! What a part of a simulation hands over of itself for a checkpoint.
#![tactic(auto)]

ghost use Rattle.std.specs.Prelude.{◌≡◌, All, IfOk, map, true};
ghost use Rattle.ss_wire.specs.Form.{spell_some};
ghost use Rattle.ss_piece.specs.Pieces.{slip, state_text, event_text, state_spelled, event_spelled, piece_slip};

use ss_element::{Element, Event, Key, Payload};
use ss_wire::Writer;
use std::alloc::{AllocError, Global};

/// What one part hands over of the state of a simulation at a time: what it would be saved as, and nothing of how the
/// simulation is divided.
#[derive(Drop)]
pub struct Piece {
    /// The spelled states of its components, each with its component's number.
    pub states: Vec<(u32, Vec<u8>)>,
    /// The keys and the spelled loads of its events: those that are to come in the part, and those that it sent and no
    /// other part has taken in yet, in the order of sending.
    pub events: Vec<(Key, Vec<u8>)>,
    /// The time of its last handled event, in picoseconds.
    pub last: u64,
}

// The spelled state of an element.
fn state_of<E: Element>(alloc: Global, element: &E) -> Result<Vec<u8>, AllocError>
    requires { E.kind.begun element.now ≡ true }
    ensures { IfOk result (λ v. v.items ≡ E.saving.spell element.now) }
{
    let mut out = Writer::new(alloc);
    element.save(&mut out)?;
    Ok(out.finish())
}

// The spelled load of an event, which is empty where there is none.
fn load_of<E: Element>(alloc: Global, load: &Option<E::Load>) -> Result<Vec<u8>, AllocError>
    ensures { IfOk result (λ v. v.items ≡ spell_some E.saving.spell_load load.now) }
{
    let mut out = Writer::new(alloc);
    if let Some(load) = load {
        load.save(&mut out)?;
    }
    Ok(out.finish())
}

// The spelled states of elements.
fn states_of<E: Element>(
    alloc: Global,
    elements: &[(u32, E)],
) -> Result<Vec<(u32, Vec<u8>)>, AllocError>
    requires { All (λ x. E.kind.begun x.1 ≡ true) elements.now }
    ensures { IfOk result (λ v. map state_text v.items ≡ map (state_spelled E.saving) elements.now) }
{
    let mut states = Vec::new(alloc);
    for (number, element) in elements {
        let bytes = state_of(alloc, element)?;
        states.push((*number, bytes))?;
    }
    Ok(states)
}

// The keys of events, with their spelled loads.
fn events_of<E: Element>(
    alloc: Global,
    events: &[Event<E::Load>],
) -> Result<Vec<(Key, Vec<u8>)>, AllocError>
    ensures { IfOk result (λ v. map event_text v.items ≡ map (event_spelled E.saving) events.now) }
{
    let mut texts = Vec::new(alloc);
    for event in events {
        let bytes = load_of::<E>(alloc, &event.load)?;
        texts.push((event.key, bytes))?;
    }
    Ok(texts)
}

/// The piece of a part with these elements, each with its number, and these events: those that are to come in it, and
/// behind them those that it sent to other parts and that these haven't taken in yet, in the order of sending. Elements
/// and events stand in the piece as they stand here. `last` is the time of the part's last handled event, in
/// picoseconds. The start event of each element was handled. It fails only where no memory is left. How states and loads
/// are spelled is this project's own.
pub fn piece_of<E: Element>(
    alloc: Global,
    elements: &[(u32, E)],
    events: &[Event<E::Load>],
    last: u64,
) -> Result<Piece, AllocError>
    requires begun { All (λ x. E.kind.begun x.1 ≡ true) elements.now }
    ensures { IfOk result (λ p. slip p ≡ piece_slip E.saving elements.now events.now last) }
{
    let states = states_of(alloc, elements)?;
    let events = events_of::<E>(alloc, events)?;
    Ok(Piece {
        states,
        events,
        last,
    })
}
