//! Whose turn it is at an output.

ghost use Rattle.std.specs.Prelude.{◌≡◌, ◌<◌, ◌≤◌, ◌==◌, ◌&&◌, ◌||◌, nat_lt, IfOk};
ghost use Rattle.std.specs.Option.{ForSome};
ghost use Rattle.mr_arb.specs.Arbitrating.{cyclic_distance, wins, turn_after, turn_of, Fits};

use crate::{ArbKind, Order, Request};
use std::alloc::{AllocError, Global};

/// Whose turn it is at an output.
#[derive(Drop)]
pub enum Turn {
    /// The slot to begin with.
    RoundRobin(u32),
    /// All slots in the order of their last use.
    LeastRecent(Order),
    /// Each packet by its age.
    Age,
}

impl Turn {
    /// The first turn: round robin begins with slot 0, and least recently used with the slots in ascending order.
    pub(crate) fn of_kind(alloc: Global, kind: ArbKind, slots: u32) -> Result<Turn, AllocError>
        requires some { 1 ≤ slots }
        requires few { slots ≤ 4096 }
        ensures { IfOk result (λ t. t ≡ turn_of kind slots) }
    {
        Ok(match kind {
            ArbKind::RoundRobin => Turn::RoundRobin(0),
            ArbKind::LeastRecent => Turn::LeastRecent(Order::ascending(alloc, slots)?),
            ArbKind::Age => Turn::Age,
        })
    }

    /// Whether a request wins over another.
    pub(crate) fn prefers(&self, slots: u32, request: &Request, other: &Request) -> bool
        requires turn { Fits slots self.now }
        requires slot { request.now.slot < slots }
        requires other { other.now.slot < slots }
        ensures { result ≡ wins slots self.now request.now other.now }
    {
        match self {
            Turn::RoundRobin(first) => {
                distance(*first, slots, request.slot) < distance(*first, slots, other.slot)
            }
            Turn::LeastRecent(order) => order.is_before(request.slot, other.slot),
            Turn::Age => is_older(request, other),
        }
    }

    /// The turn after an output has chosen.
    pub(crate) fn pass(&mut self, slots: u32, winner: Option<Request>)
        requires turn { Fits slots self.old }
        requires slot { ForSome winner (λ q. q.slot < slots) }
        ensures { self.new ≡ turn_after slots self.old winner }
    {
        let slot = match winner {
            None => return,
            Some(request) => request.slot,
        };
        match self {
            Turn::RoundRobin(first) => {
                *first = if slot + 1 == slots { 0 } else { slot + 1 };
            }
            Turn::LeastRecent(order) => order.move_to_end(slot),
            Turn::Age => {}
        }
    }
}

// How many slots behind the first one a slot comes in cyclic order.
fn distance(first: u32, slots: u32, slot: u32) -> u64
    requires first { first < slots }
    requires slot { slot < slots }
    ensures { result ≡ cyclic_distance slots first slot }
{
    if first <= slot {
        (slot - first) as u64
    } else {
        slot as u64 + slots as u64 - first as u64
    }
}

// Whether a request's packet was made before another's, or at the same time for a lower slot.
fn is_older(request: &Request, other: &Request) -> bool
    ensures { result ≡ (nat_lt request.now.born other.now.born || (request.now.born == other.now.born && nat_lt request.now.slot other.now.slot)) }
{
    request.born < other.born || (request.born == other.born && request.slot < other.slot)
}
