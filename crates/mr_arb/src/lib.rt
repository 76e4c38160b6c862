//! Arbiters after Merlin's: which request each output of a crossbar grants. Outputs are served in ascending order, and each input is
//! granted at most once.
#![tactic(auto)]

ghost use Rattle.std.specs.Prelude.{◌≡◌, ◌<◌, ◌≤◌, ◌==◌, ◌++◌, ◌&&◌, ℕ, All, take, drop, length, filter, replicate, slice_get, slice_index, not, ◌+◌, ◌^◌, IfOk, IfSome, Some};
ghost use Rattle.std.specs.Option.{ForSome};
ghost use Rattle.mr_arb.specs.Arbitrating.{Fits, EachFits, picks, wins, better, winner, free, marked, grant_of, turn_of};
ghost use Rattle.mr_arb.specs.Chains.{AreChains};

mod chains;
mod order;
mod turn;

use chains::chain;
pub use order::Order;
use std::alloc::{AllocError, Global};
use std::marker::Model;
pub use turn::Turn;

/// How an output chooses among requests.
#[derive(Clone, Copy, Debug, PartialEq, Eq)]
pub enum ArbKind {
    /// The first in cyclic order of slots from the one after the last that it granted.
    RoundRobin,
    /// The slot that it hasn't granted for longest.
    LeastRecent,
    /// The packet that was made first, and of these the lowest slot.
    Age,
}

/// A packet at the head of an input queue that asks for an output.
#[derive(Clone, Copy, Debug, PartialEq, Eq)]
pub struct Request {
    /// Its input queue.
    pub slot: u32,
    /// The port of that queue.
    pub input: u16,
    /// The port that it asks for.
    pub output: u16,
    /// When the packet was made, in picoseconds.
    pub born: u64,
}

/// The arbiters of a crossbar's outputs. Contracts see them as the number of slots and the turn of each output.
#[derive(Drop)]
pub struct Arbiter {
    slots: u32,
    turns: Vec<Turn>,
    // which inputs were granted in this call
    granted: Vec<bool>,
    // the number of each output's first request in this call
    first: Vec<u32>,
    // for each request of this call the number of the next one for the same output
    next: Vec<u32>,
}

impl Model for Arbiter {
    ghost use Rattle.std.specs.Prelude.{length};
    ghost use Rattle.mr_arb.specs.Arbitrating.{Arbiting, IsArbiter};

    ghost Value = { Arbiting };

    ghost view = { λ a. record { slots = a.slots; turns = a.turns.items } };

    ghost invariant = { λ a. IsArbiter a.slots a.turns.items (length a.granted.items) (length a.first.items) (length a.next.items) };
}

impl Arbiter {
    #[tactic(auto, using(crate::proofs::Picking::replicate_more))]
    /// Arbiters for this many outputs, over input queues with the numbers from 0 to `slots - 1`. It fails only where no memory is left.
    pub fn new(
        alloc: Global,
        kind: ArbKind,
        slots: u32,
        outputs: u16,
    ) -> Result<Arbiter, AllocError>
        requires some { 1 ≤ slots }
        requires few { slots ≤ 4096 }
        ensures slots { IfOk result (λ a. a.slots ≡ slots) }
        ensures turns { IfOk result (λ a. a.turns ≡ replicate outputs (turn_of kind slots)) }
    {
        let mut turns = Vec::with_capacity(alloc, outputs as usize)?;
        for _output in 0..outputs {
            turns.push(Turn::of_kind(alloc, kind, slots)?)?;
        }
        Arbiter::of_turns(alloc, slots, turns)
    }

    /// Arbiters that go on from these turns, one per output. It fails only where no memory is left.
    pub fn of_turns(alloc: Global, slots: u32, turns: Vec<Turn>) -> Result<Arbiter, AllocError>
        requires few { slots ≤ 4096 }
        requires outputs { length turns.items < 2 ^ 16 }
        requires fit { EachFits slots turns.items }
        ensures { IfOk result (λ a. a ≡ record { slots = slots; turns = turns.items }) }
    {
        let granted = Vec::from_elem(alloc, false, slots as usize)?;
        let first = Vec::from_elem(alloc, 0, turns.len())?;
        let next = Vec::from_elem(alloc, 0, slots as usize)?;
        Ok(Arbiter {
            slots,
            turns,
            granted,
            first,
            next,
        })
    }

    /// The turn of each output.
    pub fn turns(&self) -> &[Turn]
        ensures { result.now ≡ self.now.turns }
    {
        &self.turns
    }

    /// Grants each output, in ascending order, the slot of one of its requests or none, and no input more than one slot. `grants` then
    /// has a place per output, with the granted slot or `u32::MAX`. It takes no memory. With no more requests than slots each output looks
    /// at its own requests alone, and otherwise at all of them.
    pub fn pick(&mut self, requests: &[Request], grants: &mut [u32])
        requires outputs { length grants.old ≡ length self.old.turns }
        requires slots { All (λ q. q.slot < self.old.slots) requests.now }
        requires inputs { All (λ q. q.input < self.old.slots) requests.now }
        ensures grants { grants.new ≡ (picks self.old.slots 0 self.old.turns requests.now).1 }
        ensures turns { self.new ≡ record self.old { turns = (picks self.old.slots 0 self.old.turns requests.now).0 } }
    {
        clear(&mut self.granted, requests);
        chain(&mut self.first, &mut self.next, requests);
        pick_each(
            &mut self.turns,
            self.slots,
            &mut self.granted,
            &self.first,
            &self.next,
            requests,
            grants,
        );
    }
}

// Takes the marks of the requests' inputs away.
#[tactic(auto, using(crate::proofs::Picking::unmarked_more))]
fn clear(granted: &mut [bool], requests: &[Request])
    requires { All (λ q. q.input < length granted.old) requests.now }
    ensures { free granted.new requests.now ≡ requests.now }
{
    for request in requests {
        granted[request.input as usize] = false;
    }
}

// Grants each output in turn.
fn pick_each(
    turns: &mut [Turn],
    slots: u32,
    granted: &mut [bool],
    first: &[u32],
    next: &[u32],
    requests: &[Request],
    grants: &mut [u32],
)
    requires few { length turns.old < 2 ^ 16 }
    requires outputs { length grants.old ≡ length turns.old }
    requires first { length first.now ≡ length turns.old }
    requires chains { length requests.now ≤ length next.now → AreChains first.now next.now 0 requests.now }
    requires fit { EachFits slots turns.old }
    requires slots { All (λ q. q.slot < slots) requests.now }
    requires inputs { All (λ q. q.input < length granted.old) requests.now }
    ensures turns { turns.new ≡ (picks slots 0 turns.old (free granted.old requests.now)).0 }
    ensures grants { grants.new ≡ (picks slots 0 turns.old (free granted.old requests.now)).1 }
{
    for output in 0..turns.len() {
        let winner = winner_of(
            &turns[output],
            slots,
            output as u16,
            granted,
            first,
            next,
            requests,
        );
        grants[output] = slot_of(winner);
        mark(granted, winner);
        turns[output].pass(slots, winner);
    }
}

// Marks the input of a winner.
fn mark(granted: &mut [bool], winner: Option<Request>)
    requires { ForSome winner (λ q. q.input < length granted.old) }
    ensures { granted.new ≡ marked granted.old winner }
{
    if let Some(request) = winner {
        granted[request.input as usize] = true;
    }
}

// The slot of a winner.
fn slot_of(winner: Option<Request>) -> u32
    ensures { result ≡ grant_of winner }
{
    match winner {
        None => u32::MAX,
        Some(request) => request.slot,
    }
}

// Of the best request so far and a next one the one that wins.
fn preferred(turn: &Turn, slots: u32, best: Option<Request>, request: Request) -> Request
    requires turn { Fits slots turn.now }
    requires slot { request.slot < slots }
    requires best { ForSome best (λ b. b.slot < slots) }
    ensures { Some result ≡ better (wins slots turn.now) best request }
{
    match best {
        Some(other) if !turn.prefers(slots, &request, &other) => other,
        _ => request,
    }
}

// The request that wins an output, among those of inputs that weren't granted.
fn winner_of(
    turn: &Turn,
    slots: u32,
    output: u16,
    granted: &[bool],
    first: &[u32],
    next: &[u32],
    requests: &[Request],
) -> Option<Request>
    requires turn { Fits slots turn.now }
    requires slots { All (λ q. q.slot < slots) requests.now }
    requires inputs { All (λ q. q.input < length granted.now) requests.now }
    requires output { output < length first.now }
    requires chains { length requests.now ≤ length next.now → AreChains first.now next.now 0 requests.now }
    ensures { result ≡ winner slots output turn.now (free granted.now requests.now) }
{
    if requests.len() <= next.len() {
        winner_of_own(turn, slots, output, granted, first, next, requests)
    } else {
        winner_of_all(turn, slots, output, granted, requests)
    }
}

// The request that wins an output, from the requests of its chain.
fn winner_of_own(
    turn: &Turn,
    slots: u32,
    output: u16,
    granted: &[bool],
    first: &[u32],
    next: &[u32],
    requests: &[Request],
) -> Option<Request>
    requires turn { Fits slots turn.now }
    requires slots { All (λ q. q.slot < slots) requests.now }
    requires inputs { All (λ q. q.input < length granted.now) requests.now }
    requires output { output < length first.now }
    requires room { length requests.now ≤ length next.now }
    requires chains { AreChains first.now next.now 0 requests.now }
    ensures { result ≡ winner slots output turn.now (free granted.now requests.now) }
{
    let mut best = None;
    let mut number = first[output as usize] as usize;
    while number < requests.len() {
        let request = requests[number];
        if !granted[request.input as usize] {
            best = Some(preferred(turn, slots, best, request));
        }
        number = next[number] as usize;
    }
    best
}

// The request that wins an output, from all requests.
#[tactic(auto, using(crate::proofs::Picking::winner_more, crate::proofs::Picking::winner_skip))]
fn winner_of_all(
    turn: &Turn,
    slots: u32,
    output: u16,
    granted: &[bool],
    requests: &[Request],
) -> Option<Request>
    requires turn { Fits slots turn.now }
    requires slots { All (λ q. q.slot < slots) requests.now }
    requires inputs { All (λ q. q.input < length granted.now) requests.now }
    ensures { result ≡ winner slots output turn.now (free granted.now requests.now) }
{
    let mut best = None;
    for request in requests {
        if !granted[request.input as usize] && request.output == output {
            best = Some(preferred(turn, slots, best, *request));
        }
    }
    best
}

#[cfg(test)]
mod tests;
