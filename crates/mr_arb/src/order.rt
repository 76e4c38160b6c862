//! All slots in the order of their last use.

ghost use Rattle.std.specs.Prelude.{◌≡◌, ◌<◌, ◌≤◌, ◌*◌, ℕ, All, length, take, slice_index, nat_lt, IfOk};
ghost use Rattle.std.specs.List.{range_with_len};
ghost use Rattle.mr_arb.specs.Slots.{IsOrder, place_of, to_end};
ghost use Rattle.mr_arb.specs.Uses.{IsTimeline, last_uses, order_of};

use std::alloc::{AllocError, Global};
use std::marker::Model;
use std::mem;

/// All slots, the one first that wasn't used for longest. Contracts see it as the list of them. A use is an entry of a timeline with
/// room for two entries per slot, so that comparing two slots costs a look at their last entries, and a use an entry; only when the
/// timeline is full the last entries of all slots are gathered at its beginning.
#[derive(Drop)]
pub struct Order {
    timeline: Vec<u32>,
    // the number of each slot's last entry
    places: Vec<u32>,
    spare: Vec<u32>,
    used: usize,
}

impl Model for Order {
    ghost use Rattle.std.specs.Prelude.{◌≡◌, List, ℕ, length};
    ghost use Rattle.mr_arb.specs.Uses.{IsTimeline, order_of};

    ghost Value = { List ℕ };

    ghost view = { λ o. order_of o.places.items o.timeline.items o.used };

    ghost invariant = { λ o. IsTimeline o.places.items o.timeline.items o.used × (length o.spare.items ≡ length o.timeline.items) };
}

impl Order {
    /// The slots of a list in its order. It fails only where no memory is left.
    pub fn of_slots(alloc: Global, slots: &[u32]) -> Result<Order, AllocError>
        requires some { 1 ≤ length slots.now }
        requires few { length slots.now ≤ 4096 }
        requires order { IsOrder (length slots.now) slots.now }
        ensures { IfOk result (λ o. o ≡ slots.now) }
    {
        let mut timeline = slots.to_vec(alloc)?;
        timeline.resize(2 * slots.len(), 0)?;
        let spare = Vec::from_elem(alloc, 0, 2 * slots.len())?;
        let mut places = Vec::from_elem(alloc, 0, slots.len())?;
        place_each(&mut places, slots);
        Ok(Order {
            timeline,
            places,
            spare,
            used: slots.len(),
        })
    }

    /// The slots from 0 to `slots - 1` in ascending order. It fails only where no memory is left.
    pub(crate) fn ascending(alloc: Global, slots: u32) -> Result<Order, AllocError>
        requires some { 1 ≤ slots }
        requires few { slots ≤ 4096 }
        ensures { IfOk result (λ o. o ≡ range_with_len 0 slots) }
    {
        let mut all = Vec::with_capacity(alloc, slots as usize)?;
        for slot in 0..slots {
            all.push(slot)?;
        }
        Order::of_slots(alloc, &all)
    }

    /// The slots in their order. It fails only where no memory is left.
    pub fn to_slots(&self, alloc: Global) -> Result<Vec<u32>, AllocError>
        ensures { IfOk result (λ v. v.items ≡ self.now) }
    {
        let mut slots = Vec::from_elem(alloc, 0, self.places.len())?;
        gather(&self.timeline[..self.used], &self.places, &mut slots);
        Ok(slots)
    }

    /// Whether a slot was used before another.
    pub(crate) fn is_before(&self, a: u32, b: u32) -> bool
        requires a { a < length self.now }
        requires b { b < length self.now }
        ensures { result ≡ nat_lt (place_of self.now a) (place_of self.now b) }
    {
        self.places[a as usize] < self.places[b as usize]
    }

    /// Moves a slot to the end of the list.
    pub(crate) fn move_to_end(&mut self, slot: u32)
        requires { slot < length self.old }
        ensures { self.new ≡ to_end self.old slot }
    {
        let used = make_room(
            &mut self.timeline,
            &mut self.places,
            &mut self.spare,
            self.used,
        );
        self.timeline[used] = slot;
        self.places[slot as usize] = used as u32;
        self.used = used + 1;
    }
}

// Writes down where each slot of a list stands in it.
fn place_each(places: &mut [u32], slots: &[u32])
    requires few { length slots.now ≤ 4096 }
    requires order { IsOrder (length places.old) slots.now }
    ensures { (k : ℕ) → k < length slots.now → slice_index places.new (slice_index slots.now k) ≡ k }
{
    for k in 0..slots.len() {
        places[slots[k] as usize] = k as u32;
    }
}

// Writes the slots of a timeline in the order of their last use.
fn gather(timeline: &[u32], places: &[u32], slots: &mut [u32])
    requires inside { All (λ s. s < length places.now) timeline.now }
    requires room { length (last_uses places.now 0 timeline.now) ≤ length slots.old }
    ensures { take (length (last_uses places.now 0 timeline.now)) slots.new ≡ last_uses places.now 0 timeline.now }
{
    let mut count = 0;
    for k in 0..timeline.len() {
        let slot = timeline[k];
        if places[slot as usize] as usize == k {
            slots[count] = slot;
            count += 1;
        }
    }
}

// Gathers the last entries of a timeline that is full at its beginning; the number of its used entries.
fn make_room(
    timeline: &mut Vec<u32>,
    places: &mut Vec<u32>,
    spare: &mut Vec<u32>,
    used: usize,
) -> usize
    requires timeline { IsTimeline places.old.items timeline.old.items used }
    requires spare { length spare.old.items ≡ length timeline.old.items }
    ensures timeline { IsTimeline places.new.items timeline.new.items result }
    ensures spare { length spare.new.items ≡ length timeline.new.items }
    ensures slots { length places.new.items ≡ length places.old.items }
    ensures same { order_of places.new.items timeline.new.items result ≡ order_of places.old.items timeline.old.items used }
    ensures room { result < length timeline.new.items }
{
    if used < timeline.len() {
        return used;
    }
    gather(timeline, places, spare);
    let slots = places.len();
    place_each(places, &spare[..slots]);
    mem::swap(timeline, spare);
    slots
}
