//! Reading what stands behind the head, with the first fault.

ghost use Rattle.std.specs.Prelude.{◌≡◌, ◌≤◌, length, IfOk, None};
ghost use Rattle.ss_ckpt.specs.Faults.{Gives, GivesAll};
ghost use Rattle.ss_ckpt.specs.Spells.{IsHead, Spells, IsAnswer, whole_read};
ghost use Rattle.ss_ckpt.specs.Views.{fields_of, state_of, body_of};
ghost use Rattle.ss_model.specs.Step.{State};
ghost use Rattle.ss_safe.specs.Sound.{IsRead};
ghost use Rattle.ss_model.specs.Wiring.{target};
ghost use Rattle.ss_ckpt.specs.Form.{class_field, is_reached, key_form, sorted_key, load_at, event_form, events_form, pending_form, states_form, body_form};

use crate::fault::CkptFault;
use crate::head::Head;
use ss_element::{ARRIVAL, Element, Event, Key, Model, TICK, Wires};
use ss_wire::Reader;
use std::alloc::Global;

/// Reads a class.
fn class_of(bytes: &mut Reader<'_>) -> Result<u8, CkptFault>
    ensures { Gives (λ n. n) result bytes.new (class_field.read bytes.old) }
{
    let at = bytes.at();
    let class = bytes.u8()?;
    if class == TICK || class == ARRIVAL {
        Ok(class)
    } else {
        Err(CkptFault::Value { at })
    }
}

/// Whether an event with this key reaches one of `count` components.
fn is_reached(wires: &Wires, count: usize, key: Key) -> bool
    ensures { result ≡ is_reached count (target wires.now key) }
{
    match wires.target(key) {
        Some((component, _)) => (component as usize) < count,
        None => false,
    }
}

/// Reads a key.
fn key_of(wires: &Wires, count: usize, bytes: &mut Reader<'_>) -> Result<Key, CkptFault>
    ensures { Gives (λ k. k) result bytes.new ((key_form wires.now count).read bytes.old) }
{
    let time = bytes.u64()?;
    let class = class_of(bytes)?;
    let at = bytes.at();
    let line = bytes.u32()?;
    let key = Key { time, class, line };
    if is_reached(wires, count, key) {
        Ok(key)
    } else {
        Err(CkptFault::Value { at })
    }
}

/// Reads a key that comes before none in front of it.
fn sorted_key(
    wires: &Wires,
    count: usize,
    before: Option<Key>,
    bytes: &mut Reader<'_>,
) -> Result<Key, CkptFault>
    ensures { Gives (λ k. k) result bytes.new ((sorted_key wires.now count before).read bytes.old) }
{
    let at = bytes.at();
    let key = key_of(wires, count, bytes)?;
    match before {
        Some(front) if key.is_before(&front) => Err(CkptFault::Order { at }),
        _ => Ok(key),
    }
}

/// Reads the load of an event with this key, if it has one.
fn load_of<E: Element>(
    elements: &[E],
    wires: &Wires,
    key: Key,
    bytes: &mut Reader<'_>,
) -> Result<Option<E::Load>, CkptFault>
    ensures { Gives (λ l. l) result bytes.new ((load_at E.saving wires.now elements.now key).read bytes.old) }
{
    if key.class != ARRIVAL {
        return Ok(None);
    }
    let Some((component, _)) = wires.target(key) else {
        return Err(CkptFault::Form);
    };
    let Some(element) = elements.get(component as usize) else {
        return Err(CkptFault::Form);
    };
    let load = element.read_load(bytes)?;
    Ok(Some(load))
}

/// Reads an event.
fn event_of<E: Element>(
    elements: &[E],
    wires: &Wires,
    before: Option<Key>,
    bytes: &mut Reader<'_>,
) -> Result<Event<E::Load>, CkptFault>
    ensures { Gives (λ e. e) result bytes.new ((event_form E.saving wires.now elements.now before).read bytes.old) }
{
    let key = sorted_key(wires, elements.len(), before, bytes)?;
    let load = load_of(elements, wires, key, bytes)?;
    Ok(Event { key, load })
}

/// Reads so many events.
fn events_of<E: Element>(
    alloc: Global,
    elements: &[E],
    wires: &Wires,
    count: u32,
    bytes: &mut Reader<'_>,
) -> Result<Vec<Event<E::Load>>, CkptFault>
    ensures { Gives (λ v. v.items) result bytes.new ((events_form E.saving wires.now elements.now count None).read bytes.old) }
{
    let mut events = Vec::new(alloc);
    let mut before = None;
    for _ in 0..count {
        let event = event_of(elements, wires, before, bytes)?;
        before = Some(event.key);
        events.push(event)?;
    }
    Ok(events)
}

/// Reads the states of the elements in order, each in its place.
fn restore_all<E: Element>(
    alloc: Global,
    elements: &mut [E],
    bytes: &mut Reader<'_>,
) -> Result<(), CkptFault>
    ensures { Gives (λ u. elements.new) result bytes.new ((states_form E.saving elements.old).read bytes.old) }
{
    for i in 0..elements.len() {
        let element = &mut elements[i];
        element.restore(alloc, bytes)?;
    }
    Ok(())
}

/// Reads the events with their number.
fn pending_of<E: Element>(
    alloc: Global,
    elements: &[E],
    wires: &Wires,
    bytes: &mut Reader<'_>,
) -> Result<Vec<Event<E::Load>>, CkptFault>
    ensures { Gives (λ v. v.items) result bytes.new ((pending_form E.saving wires.now elements.now).read bytes.old) }
{
    let count = bytes.u32()?;
    events_of(alloc, elements, wires, count, bytes)
}

/// Reads what stands behind the head.
fn body_of<E: Element>(
    alloc: Global,
    elements: &mut [E],
    wires: &Wires,
    bytes: &mut Reader<'_>,
) -> Result<Vec<Event<E::Load>>, CkptFault>
    ensures { Gives (λ v. (elements.new, v.items)) result bytes.new ((body_form E.saving wires.now elements.old).read bytes.old) }
{
    restore_all(alloc, elements, bytes)?;
    pending_of(alloc, elements, wires, bytes)
}

/// What a checkpoint's bytes spell: the model that its graph text makes with its elements as they were saved, the events
/// that were to come, the time at which they were saved and that of the last handled event. Times are in picoseconds.
#[derive(Drop)]
pub struct Saved<E: Element> {
    pub time: u64,
    pub last: u64,
    pub model: Model<E>,
    pub events: Vec<Event<E::Load>>,
}

/// Reads all that stands behind the head.
fn read_all<E: Element>(
    alloc: Global,
    bytes: &[u8],
    head: &Head,
    model: Model<E>,
) -> Result<Saved<E>, CkptFault>
    requires { head.now.body ≤ length bytes.now }
    ensures told { GivesAll body_of result (whole_read (body_form E.saving model.wires model.elements.items) bytes.now head.now.body) }
    ensures kept { IfOk result (λ s. (s.time ≡ head.now.time) × (s.last ≡ head.now.last) × (s.model.wires ≡ model.wires)) }
{
    let Model {
        mut elements,
        wires,
    } = model;
    let mut reader = Reader::new(bytes, head.body as usize);
    let events = body_of(alloc, &mut elements, &wires, &mut reader)?;
    let at = reader.at();
    match reader.u8() {
        Ok(_) => Err(CkptFault::Trailing { at }),
        Err(_) => Ok(Saved {
            time: head.time,
            last: head.last,
            model: Model { elements, wires },
            events,
        }),
    }
}

/// The state that the bytes of a checkpoint spell behind its head, or the first fault: `Short`, `Value`, `Order` and
/// `Trailing` as the fields follow one another. It needs the head that `read_head` gave for these bytes, and the model that
/// its graph text makes. `NoMemory` comes only where no memory was left. The form is this project's own.
pub fn read<E: Element>(
    alloc: Global,
    bytes: &[u8],
    head: &Head,
    model: Model<E>,
) -> Result<Saved<E>, CkptFault>
    requires { IsHead bytes.now (fields_of head.now) head.now.body }
    // What was read is what the bytes spell,
    ensures found { IfOk result (λ s. Spells E.saving model.wires model.elements.items bytes.now head.now.graph.items head.now.time (state_of s)) }
    // and is as a state is that was saved.
    ensures saved { IfOk result (λ s. IsRead E.saving model.wires model.elements.items (state_of s)) }
    ensures kept { IfOk result (λ s. (s.time ≡ head.now.time) × (s.last ≡ head.now.last) × (s.model.wires ≡ model.wires)) }
    // What the bytes spell is read.
    ensures all { (s : State E E.Load) → Spells E.saving model.wires model.elements.items bytes.now head.now.graph.items head.now.time s → IsAnswer s state_of result }
    // Which fault it is.
    ensures exact { GivesAll body_of result (whole_read (body_form E.saving model.wires model.elements.items) bytes.now head.now.body) }
{
    read_all(alloc, bytes, head, model)
}
