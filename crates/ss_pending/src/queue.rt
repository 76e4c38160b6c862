//! Events in order, their loads apart from their keys.

ghost use Rattle.std.specs.Prelude.{◌≡◌, ◌+◌, ◌<◌, [], ◌∷◌, ◌==◌, OnOk, OnErr, List, ℕ, false, length, IfSome, IfNone, IfOk, OnSome, option_copied};
ghost use Rattle.std.specs.BinaryHeap.{heap_items, IsHeap};
ghost use Rattle.ss_model.specs.declared.Event.{Event};
ghost use Rattle.ss_model.specs.Order.{insert, next_key, next_time, begins_before};
ghost use Rattle.ss_pending.specs.Filed.{in_order, latest_first, AllBelow, Different, FirstOf, Takes};
ghost use Rattle.ss_pending.specs.Loads.{all_loaded, CanTake, freed};

use crate::filed::Filed;
use crate::lane::take_top;
use crate::loads::{Loads, look_up, store, unstore};
use crate::road::Road;
use ss_model::{Event, Key};
use std::alloc::{AllocError, Global};
use std::collections::BinaryHeap;
use std::marker::Model;

/// The events that are to come, in the order of their keys, and for one key in the order in which they were put in.
#[derive(Drop)]
pub struct Queue<L> {
    // The events, each with the place of its load, and the loads.
    queue: Road<u32>,
    loads: Loads<L>,
    // The time of the event that was taken last.
    last: u64,
    // The number of the next event that is put in.
    next: u64,
    alloc: Global,
}

impl<L> Model for Queue<L> {
    ghost use Rattle.std.specs.Prelude.{List};
    ghost use Rattle.ss_model.specs.declared.Event.{Event};
    ghost use Rattle.ss_pending.specs.Filed.{in_order, AllBelow, Different};
    ghost use Rattle.ss_pending.specs.Loads.{all_loaded, Kept};

    ghost Value = { List (Event L) };

    ghost view = { λ p. all_loaded p.loads.loads (in_order p.queue) };

    ghost invariant = { λ p. Different p.queue × AllBelow p.next p.queue × Kept (in_order p.queue) p.loads };
}

// The sort of an event: its class, and how long it is until it comes. Clocks and lines have fixed periods and latencies,
// so events of one sort mostly come in the order in which they are put in.
fn sort_of(key: Key, last: u64) -> u64 {
    key.time
        .wrapping_sub(last)
        .wrapping_mul(4)
        .wrapping_add(u64::from(key.class))
}

// The key of the first event.
fn first_key<L>(queue: &Road<L>) -> Option<Key>
    requires { Different queue.now }
    ensures { result ≡ next_key (in_order queue.now) }
{
    match queue.first() {
        Some(first) => Some(first.event.key),
        None => None,
    }
}

// Puts in an event whose number is above all others.
fn put<L: Copy + Drop>(queue: &mut Road<L>, filed: Filed<L>, sort: u64) -> Result<(), AllocError>
    requires different { Different queue.old }
    requires below { AllBelow filed.number queue.old }
    ensures ok { OnOk result (in_order queue.new ≡ insert filed.event (in_order queue.old)) }
    ensures different { OnOk result (Different queue.new) }
    ensures below { OnOk result (AllBelow (filed.number + 1) queue.new) }
    ensures err { OnErr result (queue.new ≡ queue.old) }
{
    queue.put(filed, sort)
}

// Takes the first event.
fn take<L: Copy + Drop>(queue: &mut Road<L>) -> Option<Filed<L>>
    requires { Different queue.old }
    ensures some { IfSome result (λ f. in_order queue.old ≡ f.event ∷ in_order queue.new) }
    ensures none { IfNone result (in_order queue.old ≡ []) }
    ensures different { Different queue.new }
    ensures below { (n : ℕ) → AllBelow n queue.old → AllBelow n queue.new }
{
    queue.take()
}

// The events of a heap, in order, each with its load.
fn in_turn<L: Copy + Drop>(
    alloc: Global,
    loads: &Loads<L>,
    heap: BinaryHeap<Filed<u32>>,
) -> Result<Vec<Event<L>>, AllocError>
    requires heap { IsHeap latest_first (heap_items heap) }
    requires different { Different (heap_items heap) }
    ensures { IfOk result (λ v. v.items ≡ all_loaded loads.now.loads (in_order (heap_items heap))) }
{
    let mut heap = heap;
    let mut list = Vec::with_capacity(alloc, heap.len())?;
    while let Some(first) = take_top(&mut heap) {
        let key = first.event.key;
        let load = look_up(loads, first.event.load);
        list.push(Event { key, load })?;
    }
    Ok(list)
}

// Takes back the load of an event that could not be put in.
#[cold]
#[inline(never)]
fn put_back<L: Copy>(loads: &mut Loads<L>, place: Option<u32>)
    requires { CanTake place loads.old }
    ensures { loads.new ≡ freed place loads.old }
{
    unstore(loads, place);
}

impl<L> Queue<L> {
    /// No events. It takes no memory.
    pub fn new(alloc: Global) -> Self
        ensures { result ≡ [] }
    {
        Queue {
            queue: Road::new(alloc),
            loads: Loads::new(alloc),
            last: 0,
            next: 0,
            alloc,
        }
    }

    /// The key of the first event. It takes no memory.
    #[inline(always)]
    pub fn next_key(&self) -> Option<Key>
        ensures { result ≡ next_key self.now }
    {
        first_key(&self.queue)
    }

    /// Whether no event is to come.
    pub fn is_empty(&self) -> bool
        ensures { result ≡ (length self.now == 0) }
    {
        first_key(&self.queue).is_none()
    }

    /// The time of the first event, in picoseconds. It takes no memory.
    pub fn next_time(&self) -> Option<u64>
        ensures { result ≡ next_time self.now }
    {
        match first_key(&self.queue) {
            Some(key) => Some(key.time),
            None => None,
        }
    }

    /// Puts in an event with a copy of its load, behind those with its key. It fails only where no memory is left, where
    /// 2^64 - 1 events were put in before it, or where 2^32 - 1 events with a load stand already, and then changes nothing.
    pub fn insert(&mut self, key: Key, load: Option<&L>) -> Result<(), AllocError>
    where
        L: Copy + Drop,
        ensures ok { OnOk result (self.new ≡ insert (record { key = key; load = option_copied load.entry }) self.old) }
        ensures err { OnErr result (self.new ≡ self.old) }
    {
        let number = self.next;
        let Some(next) = number.checked_add(1) else {
            return Err(AllocError);
        };
        let sort = sort_of(key, self.last);
        let place = store(&mut self.loads, load)?;
        let event = Event { key, load: place };
        match put(&mut self.queue, Filed { event, number }, sort) {
            Ok(()) => {
                self.next = next;
                Ok(())
            }
            Err(error) => {
                put_back(&mut self.loads, place);
                Err(error)
            }
        }
    }

    /// Takes the first event, if it comes before a time in picoseconds. It takes no memory.
    #[inline(always)]
    pub fn take_before(&mut self, time: u64) -> Option<Event<L>>
    where
        L: Copy + Drop,
        ensures some { IfSome result (λ e. (self.old ≡ e ∷ self.new) × (e.key.time < time)) }
        ensures none { IfNone result ((begins_before time self.old ≡ false) × (self.new ≡ self.old)) }
    {
        let key = first_key(&self.queue)?;
        if key.time >= time {
            return None;
        }
        let first = take(&mut self.queue)?;
        let key = first.event.key;
        self.last = key.time;
        let load = unstore(&mut self.loads, first.event.load);
        Some(Event { key, load })
    }

    /// A copy of the events, in order. It fails only where no memory is left.
    pub fn list(&self) -> Result<Vec<Event<L>>, AllocError>
    where
        L: Copy + Drop,
        ensures { IfOk result (λ v. v.items ≡ self.now) }
    {
        let mut copy = Vec::new(self.alloc);
        self.queue.copy_to(&mut copy)?;
        in_turn(self.alloc, &self.loads, BinaryHeap::from(copy))
    }
}
