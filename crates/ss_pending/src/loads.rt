//! The loads of events, apart from their keys.

ghost use Rattle.std.specs.Prelude.{◌≡◌, ◌<◌, [], ◌∷◌, ◌++◌, OnErr, IfOk, length, slice_get, Some, option_copied};
ghost use Rattle.ss_pending.specs.Loads.{Puts, Stores, CanTake, load_at, freed};

use std::alloc::{AllocError, Global};
use std::marker::Model;

/// Loads, each at a place, where it stays until it is taken. Places are used again.
#[derive(Drop)]
pub struct Loads<L> {
    // What stands at each place, or stood there last.
    loads: Vec<L>,
    // The places at which nothing stands, as far as `free` of them.
    places: Vec<u32>,
    free: usize,
}

impl<L> Model for Loads<L> {
    ghost use Rattle.std.specs.Prelude.{length, take, ◌≤◌};
    ghost use Rattle.ss_pending.specs.Loads.{Store, AllWithin};

    ghost Value = { Store L };

    ghost view = { λ s. record { loads = s.loads.items; free = take s.free s.places.items } };

    ghost invariant = { λ s. (s.free ≤ length s.places.items) × (length s.loads.items ≤ length s.places.items) × AllWithin (length s.loads.items) (take s.free s.places.items) };
}

impl<L> Loads<L> {
    /// No loads. It takes no memory.
    pub fn new(alloc: Global) -> Self
        ensures { result ≡ record { loads = []; free = [] } }
    {
        Loads {
            loads: Vec::new(alloc),
            places: Vec::new(alloc),
            free: 0,
        }
    }

    /// Puts a copy of a load at a place at which nothing stands, and tells the place. It fails only where no memory is left, or
    /// where 2^32 - 1 loads stand already, and then changes nothing.
    #[inline(always)]
    pub fn put(&mut self, load: &L) -> Result<u32, AllocError>
    where
        L: Copy + Drop,
        ensures ok { IfOk result (λ place. Puts place load.now self.old self.new) }
        ensures err { OnErr result (self.new ≡ self.old) }
    {
        if self.free > 0 {
            let place = self.places[self.free - 1];
            self.free -= 1;
            self.loads[place as usize] = *load;
            return Ok(place);
        }
        self.add(*load)
    }

    // Puts a load behind all, where no place is free.
    #[inline(never)]
    fn add(&mut self, load: L) -> Result<u32, AllocError>
    where
        L: Copy + Drop,
        requires { self.old.free ≡ [] }
        ensures ok { IfOk result (λ place. Puts place load self.old self.new) }
        ensures err { OnErr result (self.new ≡ self.old) }
    {
        let place = self.loads.len();
        if place >= u32::MAX as usize {
            return Err(AllocError);
        }
        self.places.push(0)?;
        self.loads.push(load)?;
        Ok(place as u32)
    }

    /// The load at a place.
    pub fn get(&self, place: u32) -> Option<L>
    where
        L: Copy,
        ensures { result ≡ slice_get self.now.loads place }
    {
        self.loads.get(place as usize).copied()
    }

    /// Takes the load at a place. It takes no memory.
    pub fn take(&mut self, place: u32) -> L
    where
        L: Copy,
        requires there { place < length self.old.loads }
        requires room { length self.old.free < length self.old.loads }
        ensures load { slice_get self.old.loads place ≡ Some result }
        ensures left { self.new ≡ record { loads = self.old.loads; free = self.old.free ++ place ∷ [] } }
    {
        let load = self.loads[place as usize];
        self.places[self.free] = place;
        self.free += 1;
        load
    }
}

/// Puts a copy of the load of an event, if it has one, at a place. It fails as `put` does, and then changes nothing.
#[inline(always)]
pub fn store<L: Copy + Drop>(
    loads: &mut Loads<L>,
    load: Option<&L>,
) -> Result<Option<u32>, AllocError>
    ensures ok { IfOk result (λ place. Stores place (option_copied load.entry) loads.old loads.new) }
    ensures err { OnErr result (loads.new ≡ loads.old) }
{
    match load {
        Some(load) => Ok(Some(loads.put(load)?)),
        None => Ok(None),
    }
}

/// Takes the load at a place, if one is given. It takes no memory.
#[inline(always)]
pub fn unstore<L: Copy>(loads: &mut Loads<L>, place: Option<u32>) -> Option<L>
    requires { CanTake place loads.old }
    ensures load { result ≡ load_at loads.old.loads place }
    ensures left { loads.new ≡ freed place loads.old }
{
    match place {
        Some(place) => Some(loads.take(place)),
        None => None,
    }
}

/// The load at a place, if one is given.
pub fn look_up<L: Copy>(loads: &Loads<L>, place: Option<u32>) -> Option<L>
    ensures { result ≡ load_at loads.now.loads place }
{
    match place {
        Some(place) => loads.get(place),
        None => None,
    }
}
