//! The workers of a run at its beginning.

ghost use Rattle.std.specs.Prelude.{◌≡◌, ◌+◌, ℕ, [], map, length, slice_index, slice_index_or, IfOk, OnOk};
ghost use Rattle.ss_model.specs.Order.{next_time};
ghost use Rattle.ss_parts.specs.Division.{all_idle};
ghost use Rattle.ss_run.specs.Run.{IsFitting, wires_of, start_of};
ghost use Rattle.ss_worker.specs.Place.{AllStandAt};
ghost use Rattle.ss_worker.specs.Divided.{AreDivided, put_at};

use crate::out::sort_out;
use crate::worker::Worker;
use ss_element::{Element, Model};
use ss_model::Event;
use ss_part::Partition;
use ss_run::{RunId, Simulated};
use std::alloc::{AllocError, Global};
use std::mem;
use std::sync::Arc;

// So many empty lists.
fn no_bins<V>(alloc: Global, parts: u32) -> Result<Vec<Vec<V>>, AllocError>
where
    V: Drop,
    ensures count { IfOk result (λ bins. length bins.items ≡ parts) }
    ensures empty { IfOk result (λ bins. (q : ℕ) → slice_index_or (map (λ bin. bin.items) bins.items) q [] ≡ []) }
{
    let mut bins = Vec::new(alloc);
    for _ in 0..parts {
        bins.push(Vec::new(alloc))?;
    }
    Ok(bins)
}

// Puts a value behind those of a list, if there is that list.
fn put_in<V>(bins: &mut Vec<Vec<V>>, place: u32, value: V) -> Result<(), AllocError>
where
    V: Drop,
    ensures { OnOk result (map (λ bin. bin.items) bins.new.items ≡ put_at (map (λ bin. bin.items) bins.old.items) place value) }
{
    if (place as usize) < bins.len() {
        bins[place as usize].push(value)?;
    }
    Ok(())
}

// The part of a component.
fn owner(owners: &[u32], component: u32) -> u32
    ensures { result ≡ slice_index owners.now component }
{
    match owners.get(component as usize) {
        Some(part) => *part,
        None => 0,
    }
}

// The number after another. There are never so many components that there is none.
fn next_number(number: u32) -> Result<u32, AllocError>
    ensures { IfOk result (λ n. n ≡ number + 1) }
{
    match number.checked_add(1) {
        Some(next) => Ok(next),
        None => Err(AllocError),
    }
}

// The elements of each part, with their components' numbers.
fn divided<E: Element>(
    alloc: Global,
    partition: &Partition,
    elements: Vec<E>,
) -> Result<Vec<Vec<(u32, E)>>, AllocError>
    ensures { IfOk result (λ bins. AreDivided partition.now.list partition.now.parts elements.items (map (λ bin. bin.items) bins.items)) }
{
    let mut bins = no_bins(alloc, partition.parts())?;
    let mut number = 0u32;
    for element in elements {
        let part = owner(partition.owners(), number);
        put_in(&mut bins, part, (number, element))?;
        number = next_number(number)?;
    }
    Ok(bins)
}

// The time of the first event.
fn first_time<L: Copy>(events: &[Event<L>]) -> Option<u64>
    ensures { result ≡ next_time events.now }
{
    match events.first() {
        Some(event) => Some(event.key.time),
        None => None,
    }
}

// Whether none of the elements keeps the run going.
fn are_idle<E: Element>(elements: &[E]) -> bool
    ensures { result ≡ all_idle E.kind elements.now }
{
    elements.iter().all(|x| !x.is_primary() || x.is_done())
}

/// The workers of a run's parts, in order, at its beginning, from its model, the events that are to come, in order,
/// and the time of the last event that was handled, in picoseconds. It fails only where no memory is left.
pub fn workers_of<E: Simulated>(
    alloc: Global,
    model: Model<E>,
    events: Vec<Event<E::Load>>,
    last: u64,
    run: RunId,
) -> Result<Vec<Worker<E>>, AllocError>
    requires fits { IsFitting E.kind E.meaning run.value }
    requires wires { model.wires ≡ wires_of E.meaning run.value }
    requires elements { model.elements.items ≡ (start_of E.meaning run.value).components }
    requires events { events.items ≡ (start_of E.meaning run.value).pending }
    requires last { last ≡ (start_of E.meaning run.value).last }
    ensures { IfOk result (λ ws. AllStandAt run.value 0 ws.items) }
{
    let Model { elements, wires } = model;
    let wires = Arc::new(alloc, wires)?;
    let parts = run.partition.parts();
    let least = first_time(&events);
    let done = are_idle(&elements);
    let mut bins = divided(alloc, &run.partition, elements)?;
    let mut mail = sort_out(alloc, &wires, run.partition.owners(), parts, events)?;
    let mut workers = Vec::new(alloc);
    for part in 0..parts {
        let elements = mem::replace(&mut bins[part as usize], Vec::new(alloc));
        let events = mem::replace(&mut mail[part as usize], Vec::new(alloc));
        let worker = Worker::new(
            alloc,
            Arc::try_clone(&run)?,
            part,
            elements,
            events,
            last,
            Arc::try_clone(&wires)?,
            least,
            done,
        )?;
        workers.push(worker)?;
    }
    Ok(workers)
}
