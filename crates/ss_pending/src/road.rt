//! Lanes side by side.

ghost use Rattle.std.specs.Prelude.{◌≡◌, ◌<◌, ◌+◌, [], ◌∷◌, ◌++◌, OnOk, OnErr, IfOk, IfSome, IfNone, length, option_copied, IsPermutation, Bool, true, false};
ghost use Rattle.ss_pending.specs.Filed.{all, FirstOf, Takes, AreInTurn, Rises, Sinks, IsInTurn, IsOutOfTurn};

use crate::ahead::Ahead;
use crate::filed::Filed;
use crate::lane::leads;
use std::alloc::{AllocError, Global};
use std::marker::Model;

/// How many lanes there are at most.
const MOST: usize = 16;

/// Lanes side by side, each for one sort of events, so that what comes in the order of one sort stands in one run.
/// Any event may stand in any lane. The lanes stand in the order of their first events, the empty ones last.
#[derive(Drop)]
pub struct Road<L> {
    lanes: Vec<Ahead<L>>,
    alloc: Global,
}

impl<L> Model for Road<L> {
    ghost use Rattle.std.specs.Prelude.{List};
    ghost use Rattle.ss_pending.specs.declared.filed.Filed.{Filed};
    ghost use Rattle.ss_pending.specs.Filed.{all, AreInTurn};

    ghost Value = { List (Filed L) };

    ghost view = { λ r. all r.lanes.items };

    ghost invariant = { λ r. AreInTurn r.lanes.items };
}

// Whether the lane behind the one at a place is to go ahead of it.
#[inline(always)]
fn is_out_of_turn<L>(lanes: &[Ahead<L>], place: usize) -> bool
    requires { place + 1 < length lanes.now }
    ensures out { result ≡ true → IsOutOfTurn place lanes.now }
    ensures turn { result ≡ false → IsInTurn place lanes.now }
{
    leads(lanes[place + 1].first(), lanes[place].first())
}

// Brings the lane at a place forward until it stands in turn.
fn rise<L>(lanes: &mut [Ahead<L>], place: usize)
    requires there { place < length lanes.old }
    requires turn { Rises place lanes.old }
    ensures turn { AreInTurn lanes.new }
    ensures same { IsPermutation (all lanes.old) (all lanes.new) }
{
    if place == 0 {
        return;
    }
    let ahead = place - 1;
    if is_out_of_turn(lanes, ahead) {
        lanes.swap(ahead, place);
        rise(lanes, ahead);
    }
}

// Sends the lane at a place back until it stands in turn.
fn sink<L>(lanes: &mut [Ahead<L>], place: usize)
    requires there { place < length lanes.old }
    requires turn { Sinks place lanes.old }
    ensures turn { AreInTurn lanes.new }
    ensures same { IsPermutation (all lanes.old) (all lanes.new) }
{
    let behind = place + 1;
    if behind >= lanes.len() {
        return;
    }
    if is_out_of_turn(lanes, place) {
        lanes.swap(place, behind);
        sink(lanes, behind);
    }
}

// The place of the lane for a sort, which is made where there are few.
fn place_for<L: Drop>(
    lanes: &mut Vec<Ahead<L>>,
    alloc: Global,
    sort: u64,
) -> Result<usize, AllocError>
    requires { AreInTurn lanes.old.items }
    ensures same { all lanes.new.items ≡ all lanes.old.items }
    ensures turn { AreInTurn lanes.new.items }
    ensures there { IfOk result (λ i. i < length lanes.new.items) }
{
    if let Some(place) = lanes.iter().position(|lane| lane.is_for(sort)) {
        return Ok(place);
    }
    let count = lanes.len();
    if count < MOST {
        lanes.push(Ahead::new(alloc, sort)?)?;
        return Ok(count);
    }
    Ok((sort % count as u64) as usize)
}

// Copies the events of lanes behind those of a list.
fn copy_lanes<L: Copy + Drop>(
    lanes: &[Ahead<L>],
    list: &mut Vec<Filed<L>>,
) -> Result<(), AllocError>
    ensures { OnOk result (list.new.items ≡ list.old.items ++ all lanes.now) }
{
    for lane in lanes {
        lane.copy_to(list)?;
    }
    Ok(())
}

impl<L> Road<L> {
    /// No events. It takes no memory.
    pub fn new(alloc: Global) -> Self
        ensures { result ≡ [] }
    {
        Road {
            lanes: Vec::new(alloc),
            alloc,
        }
    }

    /// The first event.
    #[inline(always)]
    pub fn first(&self) -> Option<&Filed<L>>
        ensures { FirstOf (option_copied result) self.now }
    {
        if self.lanes.is_empty() {
            return None;
        }
        self.lanes[0].first()
    }

    /// Puts in an event of a sort. It fails only where no memory is left, and then changes nothing.
    #[inline(always)]
    pub fn put(&mut self, filed: Filed<L>, sort: u64) -> Result<(), AllocError>
    where
        L: Copy + Drop,
        ensures ok { OnOk result (IsPermutation (filed ∷ self.old) self.new) }
        ensures err { OnErr result (self.new ≡ self.old) }
    {
        let place = place_for(&mut self.lanes, self.alloc, sort)?;
        self.lanes[place].put(filed)?;
        rise(&mut self.lanes, place);
        Ok(())
    }

    /// Takes the first event. It takes no memory.
    #[inline(always)]
    pub fn take(&mut self) -> Option<Filed<L>>
    where
        L: Copy + Drop,
        ensures some { IfSome result (λ x. Takes x self.old self.new) }
        ensures none { IfNone result ((self.old ≡ []) × (self.new ≡ [])) }
    {
        if self.lanes.is_empty() {
            return None;
        }
        let taken = self.lanes[0].take();
        sink(&mut self.lanes, 0);
        taken
    }

    /// Copies the events behind those of a list, in no particular order.
    pub fn copy_to(&self, list: &mut Vec<Filed<L>>) -> Result<(), AllocError>
    where
        L: Copy + Drop,
        ensures { OnOk result (list.new.items ≡ list.old.items ++ self.now) }
    {
        copy_lanes(&self.lanes, list)
    }
}
