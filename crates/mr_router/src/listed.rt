//! Turns of outputs as they are written: round robin 4 bytes of the slot to begin with, least recently used 2 bytes for each slot of
//! its list, age nothing.

ghost use Rattle.std.specs.Prelude.{◌≡◌, ◌<◌, ◌≤◌, ◌^◌, ◌++◌, ◌==◌, ◌&&◌, nat_lt, All, ℕ, List, map, length, true, count_by, slice_index, OnOk, IfOk};
ghost use Rattle.std.specs.List.{flat_map, list_all, range_with_len};
ghost use Rattle.ss_wire.specs.Form.{big_bytes};
ghost use Rattle.ss_element.specs.Gives.{Tells};
ghost use Rattle.mr_arb.specs.Slots.{IsOrder};
ghost use Rattle.mr_arb.specs.Arbitrating.{Fits, EachFits};
ghost use Rattle.mr_arb.specs.declared.turn.Turn.TheVariants as turn;
ghost use Rattle.mr_router.specs.Turns.{turn_read, turn_fits, holds_once, turn_text, order_form, turn_form};

use mr_arb::{Order, Turn};
use ss_element::RestoreFault;
use ss_wire::{Reader, Writer};
use std::alloc::{AllocError, Global};

/// The turn of an output as it is written: the slot to begin with, a list of slots, or nothing.
#[derive(Drop)]
pub enum Listed {
    RoundRobin(u32),
    LeastRecent(Vec<u16>),
    Age,
}

impl Listed {
    // The turn of an arbiter.
    pub(crate) fn of_turn(alloc: Global, slots: u32, turn: &Turn) -> Result<Listed, AllocError>
        requires few { slots ≤ 4096 }
        requires fit { Fits slots turn.now }
        ensures { IfOk result (λ l. turn_read l ≡ turn.now) }
    {
        Ok(match turn {
            Turn::RoundRobin(first) => Listed::RoundRobin(*first),
            Turn::LeastRecent(order) => {
                Listed::LeastRecent(narrowed(alloc, &order.to_slots(alloc)?)?)
            }
            Turn::Age => Listed::Age,
        })
    }

    // The turn of an arbiter that it is.
    pub(crate) fn to_turn(&self, alloc: Global, slots: u32) -> Result<Turn, AllocError>
        requires some { 1 ≤ slots }
        requires few { slots ≤ 4096 }
        requires fit { Fits slots (turn_read self.now) }
        ensures { IfOk result (λ t. t ≡ turn_read self.now) }
    {
        Ok(match self {
            Listed::RoundRobin(first) => Turn::RoundRobin(*first),
            Listed::LeastRecent(order) => {
                Turn::LeastRecent(Order::of_slots(alloc, &widened(alloc, order)?)?)
            }
            Listed::Age => Turn::Age,
        })
    }

    // The same turn again.
    pub(crate) fn copied(&self, alloc: Global) -> Result<Listed, AllocError>
        ensures { IfOk result (λ l. turn_read l ≡ turn_read self.now) }
    {
        Ok(match self {
            Listed::RoundRobin(first) => Listed::RoundRobin(*first),
            Listed::LeastRecent(order) => Listed::LeastRecent(order.to_vec(alloc)?),
            Listed::Age => Listed::Age,
        })
    }

    // Whether it is one that an arbiter of so many slots may have.
    pub(crate) fn fits(&self, alloc: Global, slots: u32) -> Result<bool, AllocError>
        requires few { slots ≤ 4096 }
        ensures { IfOk result (λ b. b ≡ turn_fits slots (turn_read self.now)) }
    {
        match self {
            Listed::RoundRobin(first) => Ok(*first < slots),
            Listed::LeastRecent(order) => is_order(alloc, slots, order),
            Listed::Age => Ok(true),
        }
    }

    // Writes it.
    pub(crate) fn save(&self, out: &mut Writer) -> Result<(), AllocError>
        ensures { OnOk result (out.new ≡ out.old ++ turn_text (turn_read self.now)) }
    {
        match self {
            Listed::RoundRobin(first) => out.u32(*first),
            Listed::LeastRecent(order) => save_slots(order, out),
            Listed::Age => Ok(()),
        }
    }

    // Takes on a turn of its sort that was written.
    pub(crate) fn restore(&mut self, bytes: &mut Reader<'_>) -> Result<(), RestoreFault>
        ensures { Tells (λ u. turn_read self.new) result bytes.new ((turn_form (turn_read self.old)).read bytes.old) }
    {
        match self {
            Listed::RoundRobin(first) => {
                *first = bytes.u32()?;
            }
            Listed::LeastRecent(order) => restore_slots(order, bytes)?,
            Listed::Age => {}
        }
        Ok(())
    }
}

// Slots in 2 bytes each.
fn narrowed(alloc: Global, slots: &[u32]) -> Result<Vec<u16>, AllocError>
    requires { All (λ s. s < 2 ^ 16) slots.now }
    ensures { IfOk result (λ v. v.items ≡ slots.now) }
{
    let mut narrow = Vec::with_capacity(alloc, slots.len())?;
    for slot in slots {
        narrow.push(*slot as u16)?;
    }
    Ok(narrow)
}

// Slots in 4 bytes each.
fn widened(alloc: Global, slots: &[u16]) -> Result<Vec<u32>, AllocError>
    ensures { IfOk result (λ v. v.items ≡ slots.now) }
{
    let mut wide = Vec::with_capacity(alloc, slots.len())?;
    for slot in slots {
        wide.push(u32::from(*slot))?;
    }
    Ok(wide)
}

// Writes 2 bytes for each slot.
fn save_slots(slots: &[u16], out: &mut Writer) -> Result<(), AllocError>
    ensures { OnOk result (out.new ≡ out.old ++ flat_map (big_bytes 2) slots.now) }
{
    for index in 0..slots.len() {
        out.u16(slots[index])?;
    }
    Ok(())
}

// Takes on as many slots that were written.
fn restore_slots(slots: &mut [u16], bytes: &mut Reader<'_>) -> Result<(), RestoreFault>
    ensures { Tells (λ u. slots.new) result bytes.new ((order_form slots.old).read bytes.old) }
{
    for index in 0..slots.len() {
        let slot = bytes.u16()?;
        slots[index] = slot;
    }
    Ok(())
}

// Whether a list has each of so many slots once.
fn is_order(alloc: Global, slots: u32, order: &[u16]) -> Result<bool, AllocError>
    requires few { slots ≤ 4096 }
    ensures { IfOk result (λ b. b ≡ turn_fits slots (turn.LeastRecent order.now)) }
{
    if order.len() != slots as usize {
        return Ok(false);
    }
    let mut counts = Vec::from_elem(alloc, 0u32, slots as usize)?;
    Ok(has_each_once(&mut counts, order))
}

// Whether a list has each slot once; the counts are at first 0.
fn has_each_once(counts: &mut [u32], order: &[u16]) -> bool
    requires few { length order.now ≤ 4096 }
    requires none { (s : ℕ) → slice_index counts.old s ≡ 0 }
    ensures { result ≡ list_all (λ s. nat_lt s (length counts.old)) order.now && list_all (holds_once order.now) (range_with_len 0 (length counts.old)) }
{
    count_slots(counts, order) && is_one_each(counts)
}

// Counts how often each slot stands in a list; whether the list has slots alone.
fn count_slots(counts: &mut [u32], order: &[u16]) -> bool
    requires few { length order.now ≤ 4096 }
    requires none { (s : ℕ) → slice_index counts.old s ≡ 0 }
    ensures inside { result ≡ list_all (λ s. nat_lt s (length counts.old)) order.now }
    ensures counts { result ≡ true → (s : ℕ) → s < length counts.old → slice_index counts.new s ≡ count_by (λ t. t == s) order.now }
{
    for index in 0..order.len() {
        let slot = usize::from(order[index]);
        if slot >= counts.len() {
            return false;
        }
        counts[slot] += 1;
    }
    true
}

// Whether each count is 1.
#[tactic(auto, using(crate::specs::Kept::Judging::each_more))]
fn is_one_each(counts: &[u32]) -> bool
    ensures { result ≡ list_all (λ s. slice_index counts.now s == 1) (range_with_len 0 (length counts.now)) }
{
    for slot in 0..counts.len() {
        if counts[slot] != 1 {
            return false;
        }
    }
    true
}

// Whether each turn is one that an arbiter of so many slots may have.
pub(crate) fn all_fit(alloc: Global, slots: u32, turns: &[Listed]) -> Result<bool, AllocError>
    requires few { slots ≤ 4096 }
    ensures { IfOk result (λ b. b ≡ list_all (turn_fits slots) (map turn_read turns.now)) }
{
    for index in 0..turns.len() {
        if !turns[index].fits(alloc, slots)? {
            return Ok(false);
        }
    }
    Ok(true)
}

// The turns of an arbiter that they are.
pub(crate) fn to_turns(alloc: Global, slots: u32, turns: &[Listed]) -> Result<Vec<Turn>, AllocError>
    requires some { 1 ≤ slots }
    requires few { slots ≤ 4096 }
    requires fit { EachFits slots (map turn_read turns.now) }
    ensures { IfOk result (λ v. v.items ≡ map turn_read turns.now) }
{
    let mut all = Vec::with_capacity(alloc, turns.len())?;
    for index in 0..turns.len() {
        all.push(turns[index].to_turn(alloc, slots)?)?;
    }
    Ok(all)
}
