//! One part of a simulation, which runs alone up to a time.
#![tactic(auto)]

ghost use Rattle.std.specs.Prelude.{◌≡◌, ◌<◌, ◌≤◌, ◌^◌, ◌+◌, ℕ, Bool, List, [], ◌∷◌, ◌++◌, All, IfOk, OnOk, length, if◌then◌else◌, map, true, false, Some, None};
ghost use Rattle.ss_model.specs.Order.{insert_all, next_time, begins_before};

mod batch;
mod elements;
mod known;
mod mail;
mod making;
mod out;
mod outgoing;
mod stage;
mod worker;

pub use batch::Batch;
use elements::Elements;
use mail::{Mail, perform};
pub use making::workers_of;
use out::sort_out;
use ss_element::{Acts, Element, Wires};
use ss_model::{Event, Line};
use ss_pending::Pending;
use ss_piece::{Piece, piece_of};
pub use stage::{Stage, Window};
use std::alloc::{AllocError, Global};
use std::marker::Model;
use std::mem;
pub use worker::{Gathered, Worker};

/// A part of a simulation: some of its components with their numbers, the events that these receive, those
/// that it sent to other parts, and the lines that it printed.
#[derive(Drop)]
pub struct Part<E: Element> {
    elements: Elements<E>,
    mail: Mail<E::Load>,
    last: u64,
    acts: Acts<E::Load>,
    alloc: Global,
}

impl<E: Element> Model for Part<E> {
    ghost use Rattle.ss_worker.specs.Standing.{Standing, standing};

    ghost Value = { Standing E E.Load };

    ghost view = { λ p. standing p.elements p.mail.pending p.mail.out.items p.mail.lines.items p.last };
}

// Puts events in, one after another.
#[tactic(auto, using(crate::proofs::Mails::insert_last))]
fn insert_events<L: Copy + Drop>(
    pending: &mut Pending<L>,
    events: Vec<Event<L>>,
) -> Result<(), AllocError>
    ensures { OnOk result (pending.new ≡ insert_all events.items pending.old) }
{
    for event in events {
        pending.insert(event)?;
    }
    Ok(())
}

impl<E: Element> Part<E> {
    ghost use Rattle.ss_worker.specs.Standing.{standing, stepped, CanRunTo, Runs, RunsTo};
    ghost use Rattle.ss_worker.specs.Batched.{AreBatches};
    ghost use Rattle.ss_piece.specs.Pieces.{slip, piece_slip};

    /// A part with these elements, each with its number, and these events. The numbers are below `count`, and
    /// `last` is the time of the last handled event, in picoseconds. It fails only where no memory is left.
    pub fn new(
        alloc: Global,
        elements: Vec<(u32, E)>,
        count: u32,
        events: Vec<Event<E::Load>>,
        last: u64,
    ) -> Result<Self, AllocError>
        requires few { length elements.items < 2 ^ 32 }
        requires below { All (λ x. x.0 < count) elements.items }
        ensures { IfOk result (λ p. p ≡ standing elements.items (insert_all events.items []) [] [] last) }
    {
        let elements = Elements::new(alloc, elements, count)?;
        let mut pending = Pending::new(alloc);
        insert_events(&mut pending, events)?;
        let mail = Mail {
            pending,
            out: Vec::new(alloc),
            lines: Vec::new(alloc),
        };
        Ok(Part {
            elements,
            mail,
            last,
            acts: Acts::new(alloc),
            alloc,
        })
    }

    /// Takes in events that other parts sent, behind those with their keys. It fails only where no memory is
    /// left, and then nothing is known of the events.
    pub fn take_in(&mut self, events: Vec<Event<E::Load>>) -> Result<(), AllocError>
        ensures { OnOk result (self.new ≡ standing self.old.part.state (insert_all events.items self.old.part.pending) self.old.part.out self.old.part.says self.old.last) }
    {
        insert_events(&mut self.mail.pending, events)
    }

    /// The events that were sent to other parts since they were taken last, in the order of sending.
    pub fn take_out(&mut self) -> Vec<Event<E::Load>>
        ensures taken { result.items ≡ self.old.part.out }
        ensures rest { self.new ≡ standing self.old.part.state self.old.part.pending [] self.old.part.says self.old.last }
    {
        mem::replace(&mut self.mail.out, Vec::new(self.alloc))
    }

    /// The events that were sent to other parts since they were taken last. It takes no memory.
    pub fn out(&self) -> &[Event<E::Load>]
        ensures { result.now ≡ self.now.part.out }
    {
        &self.mail.out
    }

    /// The events that were sent to other parts since they were taken last, a batch for each of so many parts, each
    /// in the order of sending. `owners` has the part of each component; what goes to no such part is left out. It
    /// fails only where no memory is left, and then nothing is known of those events.
    pub fn hand_out(
        &mut self,
        wires: &Wires,
        owners: &[u32],
        parts: u32,
    ) -> Result<Vec<Vec<Event<E::Load>>>, AllocError>
        ensures batches { IfOk result (λ b. AreBatches wires.now owners.now parts self.old.part.out (map (λ batch. batch.items) b.items)) }
        ensures rest { OnOk result (self.new ≡ standing self.old.part.state self.old.part.pending [] self.old.part.says self.old.last) }
    {
        let out = self.take_out();
        sort_out(self.alloc, wires, owners, parts, out)
    }

    // The events that are to come, in order, and behind them those that were sent to other parts since they were taken
    // last, in the order of sending.
    fn events(&self) -> Result<Vec<Event<E::Load>>, AllocError>
        ensures { IfOk result (λ v. v.items ≡ self.now.part.pending ++ self.now.part.out) }
    {
        let mut events = self.mail.pending.list()?;
        events.extend_from_slice(&self.mail.out)?;
        Ok(events)
    }

    /// What the part hands over of itself for a checkpoint: what it sent to other parts since this was taken last
    /// counts as its own. The start event of each of its elements was handled. It fails only where no memory is left.
    pub fn piece(&self) -> Result<Piece, AllocError>
        requires begun { All (λ x. E.kind.begun x.1 ≡ true) self.now.part.state }
        ensures { IfOk result (λ p. slip p ≡ piece_slip E.saving self.now.part.state (self.now.part.pending ++ self.now.part.out) self.now.last) }
    {
        let events = self.events()?;
        piece_of(self.alloc, self.elements(), &events, self.last)
    }

    /// The lines that were printed since they were taken last, in the order in which they were printed.
    pub fn take_lines(&mut self) -> Vec<Line>
        ensures taken { result.items ≡ self.old.part.says }
        ensures rest { self.new ≡ standing self.old.part.state self.old.part.pending self.old.part.out [] self.old.last }
    {
        mem::replace(&mut self.mail.lines, Vec::new(self.alloc))
    }

    /// The elements, each with its number. It takes no memory.
    pub fn elements(&self) -> &[(u32, E)]
        ensures { result.now ≡ self.now.part.state }
    {
        self.elements.list()
    }

    /// The time of the next event, in picoseconds. It takes no memory.
    pub fn next_time(&self) -> Option<u64>
        ensures { result ≡ next_time self.now.part.pending }
    {
        self.mail.pending.next_time()
    }

    /// The time of the last handled event, in picoseconds. It takes no memory.
    pub fn last(&self) -> u64
        ensures { result ≡ self.now.last }
    {
        self.last
    }

    /// Handles the first event, if it comes before a time in picoseconds, and tells whether it did. `owners` has
    /// the part of each component, and `part` is this part's number. It fails only where no memory is left, and
    /// then nothing is known of the part.
    pub fn step_before(
        &mut self,
        wires: &Wires,
        owners: &[u32],
        part: u32,
        time: u64,
    ) -> Result<bool, AllocError>
        requires early { time ≤ 2 ^ 62 }
        requires can { CanRunTo E.kind wires.now owners.now part time self.old }
        ensures begins { IfOk result (λ b. b ≡ begins_before time self.old.part.pending) }
        ensures step { IfOk result (λ b. self.new ≡ (if b then stepped E.kind wires.now owners.now part self.old else self.old)) }
    {
        let Some(event) = self.mail.pending.take_before(time) else {
            return Ok(false);
        };
        perform(
            wires,
            owners,
            part,
            &mut self.elements,
            &mut self.mail,
            &mut self.acts,
            event,
        )?;
        self.last = event.key.time;
        Ok(true)
    }

    // All that comes at a time before which nothing is left.
    fn run_at(
        &mut self,
        wires: &Wires,
        owners: &[u32],
        part: u32,
        now: u64,
    ) -> Result<(), AllocError>
        requires early { now < 2 ^ 62 }
        requires can { CanRunTo E.kind wires.now owners.now part (now + 1) self.old }
        requires next { next_time self.old.part.pending ≡ Some now }
        ensures runs { OnOk result (Runs E.kind wires.now owners.now part (now + 1) self.old self.new) }
        ensures done { OnOk result (begins_before (now + 1) self.new.part.pending ≡ false) }
    {
        while self.step_before(wires, owners, part, now + 1)? {}
        Ok(())
    }

    /// Handles all events before a time in picoseconds, and no others. `owners` has the part of each component,
    /// and `part` is this part's number. What goes to other parts, and the lines, stay with the part until they
    /// are taken. It fails only where no memory is left, and then nothing is known of the part.
    pub fn run_to(
        &mut self,
        wires: &Wires,
        owners: &[u32],
        part: u32,
        time: u64,
    ) -> Result<(), AllocError>
        requires early { time ≤ 2 ^ 62 }
        requires can { CanRunTo E.kind wires.now owners.now part time self.old }
        ensures { OnOk result (RunsTo E.kind wires.now owners.now part time self.old self.new) }
    {
        while let Some(now) = self.next_time() {
            if now >= time {
                break;
            }
            self.run_at(wires, owners, part, now)?;
        }
        Ok(())
    }
}

#[cfg(test)]
mod tests;
