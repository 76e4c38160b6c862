//! A simulation that runs on one thread.
#![tactic(auto)]

ghost use Rattle.std.specs.Prelude.{◌≡◌, ◌<◌, ◌≤◌, ◌^◌, [], ◌∷◌, ◌++◌, ◌+◌, if◌then◌else◌, length, take, OnOk, OnErr, List, ℕ, Bool, true, false, Some, IfSome, IfNone, IfOk};
ghost use Rattle.ss_model.specs.Order.{next_time, begins_before};
ghost use Rattle.ss_model.specs.Wiring.{WiringFits};
ghost use Rattle.ss_model.specs.Step.{starts, opening};
ghost use Rattle.ss_element.specs.Kind.{behaviour};
ghost use Rattle.ss_element.specs.World.{IsSafe};

mod perform;
mod run;

use run::Bounds;
use ss_element::{Acts, Element, Wires};
use ss_model::{Event, Key, Line, START};
use ss_pending::Pending;
use std::alloc::{AllocError, Global};
use std::marker::Model;
use std::mem;

// The start of each component, in order.
fn start_events<E: Element>(alloc: Global, elements: &[E]) -> Result<Pending<E::Load>, AllocError>
    requires { length elements.now < 2 ^ 32 }
    ensures { IfOk result (λ p. p ≡ starts 0 elements.now) }
{
    let mut pending = Pending::new(alloc);
    let mut line = elements.len() as u32;
    while line > 0 {
        line -= 1;
        let key = Key {
            time: 0,
            class: START,
            line,
        };
        pending.insert(Event { key, load: None })?;
    }
    Ok(pending)
}

/// A simulation that runs on one thread.
#[derive(Drop)]
pub struct Serial<E: Element> {
    wires: Wires,
    elements: Vec<E>,
    pending: Pending<E::Load>,
    last: u64,
    lines: Vec<Line>,
    acts: Acts<E::Load>,
    alloc: Global,
}

impl<E: Element> Model for Serial<E> {
    ghost use Rattle.ss_serial.specs.Serial.{Standing, standing, state_of};

    ghost Value = { Standing E E.Load };

    ghost view = { λ s. standing s.wires (state_of s.elements.items s.pending s.last) s.lines.items };
}

impl<E: Element> Serial<E> {
    ghost use Rattle.ss_serial.specs.Serial.{standing, stepped, Runs, RunsUntil, Ran};

    /// A simulation that is about to begin: each component has its start event at time 0. It fails only where
    /// no memory is left.
    pub fn start(alloc: Global, model: ss_element::Model<E>) -> Result<Self, AllocError>
        requires { length model.elements.items < 2 ^ 32 }
        ensures { IfOk result (λ s. s ≡ standing model.wires (opening model.elements.items) []) }
    {
        let ss_element::Model { elements, wires } = model;
        let pending = start_events::<E>(alloc, &elements)?;
        Ok(Serial {
            wires,
            elements,
            pending,
            last: 0,
            lines: Vec::new(alloc),
            acts: Acts::new(alloc),
            alloc,
        })
    }

    /// The lines that were printed since they were taken last, in the order in which they were printed.
    pub fn take_lines(&mut self) -> Vec<Line>
        ensures taken { result.items ≡ self.old.lines }
        ensures rest { self.new ≡ standing self.old.wires self.old.state [] }
    {
        mem::replace(&mut self.lines, Vec::new(self.alloc))
    }

    /// The time of the next event, in picoseconds.
    pub fn next_time(&self) -> Option<u64>
        ensures { result ≡ next_time self.now.state.pending }
    {
        self.pending.next_time()
    }

    /// The time of the last event, in picoseconds, and 0 before the first.
    pub fn last(&self) -> u64
        ensures { result ≡ self.now.state.last }
    {
        self.last
    }

    /// The components, each at its number.
    pub fn elements(&self) -> &[E]
        ensures { result.now ≡ self.now.state.components }
    {
        &self.elements
    }

    // One step, if it begins before a time.
    fn step_before(&mut self, time: u64) -> Result<bool, AllocError>
        requires early { time ≤ 2 ^ 62 }
        requires safe { IsSafe E.kind E.safe self.old.wires self.old.state }
        ensures begins { IfOk result (λ b. b ≡ begins_before time self.old.state.pending) }
        ensures step { IfOk result (λ b. self.new ≡ (if b then stepped E.kind.handled self.old else self.old)) }
    {
        let Some(event) = self.pending.take_before(time) else {
            return Ok(false);
        };
        perform::perform(
            &self.wires,
            &mut self.elements,
            event,
            &mut self.pending,
            &mut self.lines,
            &mut self.acts,
        )?;
        self.last = event.key.time;
        Ok(true)
    }

    /// Handles all events before a time in picoseconds, and no others. It fails only where no memory is left, and
    /// then nothing is known of the state.
    pub fn until(&mut self, time: u64) -> Result<(), AllocError>
        requires early { time ≤ 2 ^ 62 }
        requires safe { IsSafe E.kind E.safe self.old.wires self.old.state }
        ensures runs { OnOk result (RunsUntil E.kind.handled time self.old self.new) }
        ensures safe { OnOk result (IsSafe E.kind E.safe self.new.wires self.new.state) }
    {
        while self.step_before(time)? {}
        Ok(())
    }

    /// Runs from `origin` until the primaries agree to end, or else until `stop`, and tells the time at which the
    /// simulation ends; all times are in picoseconds. There is an agreement where there is a primary and all of
    /// them are done; they are asked at each multiple of `exit` above the origin and up to the stop. The time is
    /// that of the agreement; without one it is the stop where an event is still to come, and else the time of the
    /// last event. When to ask and which time to tell is this project's own rule. It fails only where no memory is
    /// left, and then nothing is known of the state.
    pub fn run(&mut self, origin: u64, stop: u64, exit: u64) -> Result<u64, AllocError>
        requires order { origin ≤ stop }
        requires early { stop ≤ 2 ^ 62 }
        requires exits { (1 ≤ exit) × (exit ≤ 2 ^ 40) }
        requires begins { begins_before origin self.old.state.pending ≡ false }
        requires safe { IsSafe E.kind E.safe self.old.wires self.old.state }
        ensures ran { IfOk result (λ t. Ran (behaviour E.kind) (record { origin = origin; stop = stop; exit = exit }) self.old self.new t) }
        ensures safe { OnOk result (IsSafe E.kind E.safe self.new.wires self.new.state) }
    {
        let bounds = Bounds { origin, stop, exit };
        let agreed = self.run_to_end(bounds)?;
        Ok(match agreed {
            Some(time) => time,
            None => match self.next_time() {
                Some(_) => stop,
                None => self.last(),
            },
        })
    }
}
