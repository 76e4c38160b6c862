//! The events that are to come, in order.
#![tactic(auto)]

ghost use Rattle.std.specs.Prelude.{◌≡◌, ◌<◌, [], ◌∷◌, ◌==◌, OnOk, OnErr, false, length, IfSome, IfNone, IfOk, option_copied};
ghost use Rattle.ss_model.specs.Order.{insert, next_time, begins_before};
ghost use Rattle.ss_pending.specs.Near.{ahead, with_near, leads, begins, AllBefore};

mod ahead;
mod filed;
mod lane;
mod loads;
mod queue;
mod road;
mod run;

use queue::Queue;
use ss_model::{Event, Key};
use std::alloc::{AllocError, Global};
use std::marker::Model;

/// The events that are to come, in the order of their keys, and for one key in the order in which they were put in.
#[derive(Drop)]
pub struct Pending<L> {
    // An event that was put in when no other was to come, and so goes ahead of those with its key, as long as it stands. Where
    // it was taken it is left as it was.
    near: Option<Event<L>>,
    stands: bool,
    // All others.
    queue: Queue<L>,
}

impl<L> Model for Pending<L> {
    ghost use Rattle.std.specs.Prelude.{List};
    ghost use Rattle.ss_model.specs.declared.Event.{Event};
    ghost use Rattle.ss_pending.specs.Near.{near_if, with_near};

    ghost Value = { List (Event L) };

    ghost view = { λ p. with_near (near_if p.stands p.near) p.queue };
}

// Whether an event with a key, which goes ahead of those with its key, comes before the first of the others.
#[inline(always)]
fn leads(near: Key, first: Option<Key>) -> bool
    ensures { result ≡ leads near first }
{
    match first {
        Some(first) => !first.is_before(&near),
        None => true,
    }
}

// Whether the first event of a list comes before a key.
fn begins<L>(list: &[Event<L>], near: Key) -> bool
    ensures { result ≡ begins near list.now }
{
    match list.first() {
        Some(first) => first.key.is_before(&near),
        None => false,
    }
}

// Puts an event into a list in order, ahead of those with its key.
fn put_ahead<L: Copy + Drop>(list: &mut Vec<Event<L>>, near: Event<L>) -> Result<(), AllocError>
    ensures { OnOk result (list.new.items ≡ ahead near list.old.items) }
{
    let mut place = 0;
    while begins(&list[place..], near.key) {
        place += 1;
    }
    list.insert(place, near)?;
    Ok(())
}

impl<L> Pending<L> {
    /// No events. It takes no memory.
    pub fn new(alloc: Global) -> Self
        ensures { result ≡ [] }
    {
        Pending {
            near: None,
            stands: false,
            queue: Queue::new(alloc),
        }
    }

    /// Whether no event is to come.
    pub fn is_empty(&self) -> bool
        ensures { result ≡ (length self.now == 0) }
    {
        self.next_time().is_none()
    }

    /// The time of the first event, in picoseconds. It takes no memory.
    pub fn next_time(&self) -> Option<u64>
        ensures { result ≡ next_time self.now }
    {
        if self.stands
            && let Some(near) = &self.near
        {
            return match self.queue.next_time() {
                Some(time) if time < near.key.time => Some(time),
                _ => Some(near.key.time),
            };
        }
        self.queue.next_time()
    }

    /// Puts in an event, behind those with its key. It fails only where no memory is left, where 2^64 - 1 events were put
    /// in before it, or where 2^32 - 1 events with a load stand already, and then changes nothing.
    #[inline(always)]
    pub fn insert(&mut self, event: Event<L>) -> Result<(), AllocError>
    where
        L: Copy + Drop,
        ensures ok { OnOk result (self.new ≡ insert event self.old) }
        ensures err { OnErr result (self.new ≡ self.old) }
    {
        self.insert_copied(event.key, event.load.as_ref())
    }

    /// Puts in an event with a copy of a load, as `insert` does.
    #[inline(always)]
    #[tactic(auto, using(crate::proofs::Nearness::near_inserts))]
    pub fn insert_copied(&mut self, key: Key, load: Option<&L>) -> Result<(), AllocError>
    where
        L: Copy + Drop,
        ensures ok { OnOk result (self.new ≡ insert (record { key = key; load = option_copied load.entry }) self.old) }
        ensures err { OnErr result (self.new ≡ self.old) }
    {
        let Key { time, class, line } = key;
        if self.stands || !self.queue.is_empty() {
            return self.queue.insert(Key { time, class, line }, load);
        }
        self.stands = true;
        match load {
            Some(load) => self.near = Some(Event {
                key,
                load: Some(*load),
            }),
            None => self.near = Some(Event { key, load: None }),
        }
        Ok(())
    }

    /// Takes the first event, if it comes before a time in picoseconds. It takes no memory.
    #[inline(always)]
    pub fn take_before(&mut self, time: u64) -> Option<Event<L>>
    where
        L: Copy + Drop,
        ensures some { IfSome result (λ e. (self.old ≡ e ∷ self.new) × (e.key.time < time)) }
        ensures none { IfNone result ((begins_before time self.old ≡ false) × (self.new ≡ self.old)) }
    {
        if self.stands
            && let Some(near) = &self.near
            && leads(near.key, self.queue.next_key())
        {
            // Field by field, as the key was written: read back at once as a whole it would have to wait for its parts.
            let Key {
                time: at,
                class,
                line,
            } = near.key;
            if at >= time {
                return None;
            }
            let key = Key {
                time: at,
                class,
                line,
            };
            let load = near.load;
            self.stands = false;
            return Some(Event { key, load });
        }
        self.queue.take_before(time)
    }

    /// A copy of the events, in order. It fails only where no memory is left.
    pub fn list(&self) -> Result<Vec<Event<L>>, AllocError>
    where
        L: Copy + Drop,
        ensures { IfOk result (λ v. v.items ≡ self.now) }
    {
        let mut list = self.queue.list()?;
        if self.stands
            && let Some(near) = self.near
        {
            put_ahead(&mut list, near)?;
        }
        Ok(list)
    }
}

#[cfg(test)]
mod tests;
