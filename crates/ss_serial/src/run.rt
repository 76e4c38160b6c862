//! A run until the primaries agree to end.

ghost use Rattle.std.specs.Prelude.{◌≡◌, ◌<◌, ◌≤◌, ◌^◌, ◌+◌, ℕ, length, take, nat_lt, not, OnOk, Bool, true, false, Some, IfOk};
ghost use Rattle.std.specs.List.{list_any, list_all};
ghost use Rattle.ss_model.specs.Order.{next_time, begins_before};
ghost use Rattle.ss_model.specs.Step.{next_multiple};
ghost use Rattle.ss_model.specs.End.{is_idle, agree};
ghost use Rattle.ss_element.specs.Kind.{behaviour};
ghost use Rattle.ss_element.specs.World.{IsSafe};
ghost use Rattle.ss_serial.specs.Serial.{limits_of, Ends};

use crate::Serial;
use ss_element::Element;
use std::alloc::AllocError;

/// Where a run begins, when it stops at the latest, and how often the primaries are asked whether to end; in
/// picoseconds.
#[derive(Clone, Copy)]
pub struct Bounds {
    pub origin: u64,
    pub stop: u64,
    pub exit: u64,
}

impl Bounds {
    // When the primaries are asked next after a time.
    fn asked_after(&self, time: u64) -> u64
        requires early { time ≤ 2 ^ 62 }
        requires exits { (1 ≤ self.now.exit) × (self.now.exit ≤ 2 ^ 40) }
        ensures { result ≡ next_multiple time self.now.exit }
    {
        time + (self.exit - time % self.exit)
    }
}

fn has_primary<E: Element>(elements: &[E]) -> bool
    ensures { result ≡ list_any (behaviour E.kind).primary elements.now }
{
    elements.iter().any(|e| e.is_primary())
}

fn is_idle<E: Element>(element: &E) -> bool
    ensures { result ≡ is_idle (behaviour E.kind) element.now }
{
    !element.is_primary() || element.is_done()
}

// The place of the first element from one on that isn't idle, where all before that one are idle.
fn idle_from<E: Element>(elements: &[E], from: usize) -> usize
    requires { list_all (is_idle (behaviour E.kind)) (take from elements.now) ≡ true }
    ensures idle { list_all (is_idle (behaviour E.kind)) (take result elements.now) ≡ true }
    ensures all { list_all (is_idle (behaviour E.kind)) elements.now ≡ not (nat_lt result (length elements.now)) }
{
    let mut place = from;
    while place < elements.len() && is_idle(&elements[place]) {
        place += 1;
    }
    place
}

impl<E: Element> Serial<E> {
    // Runs until the stop, where the primaries never agree.
    fn run_to_stop(&mut self, bounds: Bounds) -> Result<Option<u64>, AllocError>
        requires order { bounds.origin ≤ bounds.stop }
        requires early { bounds.stop ≤ 2 ^ 62 }
        requires safe { IsSafe E.kind E.safe self.old.wires self.old.state }
        requires never { list_any (behaviour E.kind).primary self.old.state.components ≡ false }
        ensures ends { IfOk result (λ a. Ends (behaviour E.kind) (limits_of bounds) self.old self.new a) }
        ensures safe { OnOk result (IsSafe E.kind E.safe self.new.wires self.new.state) }
    {
        self.until(bounds.stop)?;
        Ok(None)
    }

    // Runs on where the primaries agree already: until they are asked, or until the stop.
    fn run_agreed(&mut self, bounds: Bounds) -> Result<Option<u64>, AllocError>
        requires order { bounds.origin ≤ bounds.stop }
        requires early { bounds.stop ≤ 2 ^ 62 }
        requires exits { (1 ≤ bounds.exit) × (bounds.exit ≤ 2 ^ 40) }
        requires safe { IsSafe E.kind E.safe self.old.wires self.old.state }
        requires agreed { agree (behaviour E.kind) self.old.state.components ≡ true }
        ensures ends { IfOk result (λ a. Ends (behaviour E.kind) (limits_of bounds) self.old self.new a) }
        ensures safe { OnOk result (IsSafe E.kind E.safe self.new.wires self.new.state) }
    {
        let asked = bounds.asked_after(bounds.origin);
        if asked > bounds.stop {
            self.until(bounds.stop)?;
            return Ok(None);
        }
        self.until(asked)?;
        Ok(Some(asked))
    }

    // Runs from one time at which the primaries are asked to another, leaving out those before which no event
    // comes, until they agree, or until the stop. The elements before the place `idle` are idle, and stay so.
    fn run_busy(&mut self, bounds: Bounds, idle: usize) -> Result<Option<u64>, AllocError>
        requires order { bounds.origin ≤ bounds.stop }
        requires early { bounds.stop ≤ 2 ^ 62 }
        requires exits { (1 ≤ bounds.exit) × (bounds.exit ≤ 2 ^ 40) }
        requires begins { begins_before bounds.origin self.old.state.pending ≡ false }
        requires safe { IsSafe E.kind E.safe self.old.wires self.old.state }
        requires primary { list_any (behaviour E.kind).primary self.old.state.components ≡ true }
        requires busy { list_all (is_idle (behaviour E.kind)) self.old.state.components ≡ false }
        requires idle { list_all (is_idle (behaviour E.kind)) (take idle self.old.state.components) ≡ true }
        ensures ends { IfOk result (λ a. Ends (behaviour E.kind) (limits_of bounds) self.old self.new a) }
        ensures safe { OnOk result (IsSafe E.kind E.safe self.new.wires self.new.state) }
    {
        let mut idle = idle;
        while let Some(next) = self.next_time() {
            if next >= bounds.stop {
                return Ok(None);
            }
            let asked = bounds.asked_after(next);
            if asked > bounds.stop {
                self.until(bounds.stop)?;
                return Ok(None);
            }
            self.until(asked)?;
            idle = idle_from(self.elements(), idle);
            if idle >= self.elements().len() {
                return Ok(Some(asked));
            }
        }
        Ok(None)
    }

    /// Runs until the primaries agree, and answers when they do, or until the stop.
    pub fn run_to_end(&mut self, bounds: Bounds) -> Result<Option<u64>, AllocError>
        requires order { bounds.origin ≤ bounds.stop }
        requires early { bounds.stop ≤ 2 ^ 62 }
        requires exits { (1 ≤ bounds.exit) × (bounds.exit ≤ 2 ^ 40) }
        requires begins { begins_before bounds.origin self.old.state.pending ≡ false }
        requires safe { IsSafe E.kind E.safe self.old.wires self.old.state }
        ensures ends { IfOk result (λ a. Ends (behaviour E.kind) (limits_of bounds) self.old self.new a) }
        ensures safe { OnOk result (IsSafe E.kind E.safe self.new.wires self.new.state) }
    {
        if !has_primary(self.elements()) {
            return self.run_to_stop(bounds);
        }
        let idle = idle_from(self.elements(), 0);
        if idle >= self.elements().len() {
            return self.run_agreed(bounds);
        }
        self.run_busy(bounds, idle)
    }
}
