//! What a simulation is made of: elements, what they ask for, and the wires between them.
#![tactic(auto)]

ghost use Rattle.std.specs.Prelude.{◌≡◌, ◌<◌, ◌^◌, [], ◌∷◌, ◌++◌, OnOk, OnErr, ◌==◌, IfSome, IfNone, List, ℕ, Bool, length, drop, true};
ghost use Rattle.std.specs.Slice.{IsItemAt};
ghost use Rattle.ss_model.specs.Wiring.{Wiring};
ghost use Rattle.ss_model.specs.Step.{State, turns_off};
ghost use Rattle.ss_element.specs.Kind.{Kind};
ghost use Rattle.ss_element.specs.World.{World};
ghost use Rattle.ss_element.specs.Saving.{Saving, SavingLaws};
ghost use Rattle.ss_element.specs.Gives.{Gives, Tells};

mod fault;
mod flow;
mod payload;
mod simulation;
mod statistics;
mod table;
#[cfg(test)]
mod tests;
mod wires;

pub use fault::RestoreFault;
pub use flow::Flow;
pub use payload::Payload;
pub use simulation::Model;
pub use ss_model::{ARRIVAL, Action, Cause, Event, InnerLine, Key, Line, LinkLine, START, TICK};
use ss_stats::StatSet;
use ss_wire::{Reader, Writer};
pub use statistics::{restore_stats, save_stats, statistics_are_read_back};
use std::alloc::{AllocError, Global};
use std::mem;
pub use wires::Wires;

/// The actions of a call, in order.
#[derive(Drop)]
pub struct Acts<L> {
    // The actions stand from `next` to `end`. In front of them, those that were taken have left others in their places,
    // and those passed by stay. What stands behind them is left over from before a `clear`, and is written over.
    items: Vec<Action<L>>,
    next: usize,
    end: usize,
    alloc: Global,
}

impl<L> std::marker::Model for Acts<L> {
    ghost use Rattle.std.specs.Prelude.{List, length, take, drop, ◌≤◌};
    ghost use Rattle.ss_model.specs.declared.Action.{Action};

    ghost Value = { List (Action L) };

    ghost view = { λ a. drop a.next (take a.end a.items.items) };

    ghost invariant = { λ a. (a.next ≤ a.end) × (a.end ≤ length a.items.items) };
}

impl<L> Acts<L> {
    /// No actions.
    pub fn new(alloc: Global) -> Self
        ensures { result ≡ [] }
    {
        Acts {
            items: Vec::new(alloc),
            next: 0,
            end: 0,
            alloc,
        }
    }

    /// The allocator for what an action holds, such as a text.
    pub fn allocator(&self) -> Global {
        self.alloc
    }

    // Those that are left.
    #[tactic(auto, using(crate::proofs::Actions::part))]
    fn left(&self) -> &[Action<L>]
        ensures { result.now ≡ self.now }
    {
        &self.items[self.next..self.end]
    }

    /// Adds an action behind the others. After an error the actions are as before.
    #[inline(always)]
    pub fn push(&mut self, action: Action<L>) -> Result<(), AllocError>
    where
        L: Drop,
        ensures ok { OnOk result (self.new ≡ self.old ++ action ∷ []) }
        ensures err { OnErr result (self.new ≡ self.old) }
    {
        if self.end < self.items.len() {
            self.items[self.end] = action;
            self.end += 1;
            Ok(())
        } else {
            self.grow(action)
        }
    }

    // Adds an action behind the others where nothing is left over to be written over.
    #[cold]
    #[inline(never)]
    fn grow(&mut self, action: Action<L>) -> Result<(), AllocError>
    where
        L: Drop,
        ensures ok { OnOk result (self.new ≡ self.old ++ action ∷ []) }
        ensures err { OnErr result (self.new ≡ self.old) }
    {
        self.items.truncate(self.end);
        self.items.push(action)?;
        self.end = self.items.len();
        Ok(())
    }

    /// Takes the first action. The buffer stays allocated, and once it is cleared it is filled again without taking
    /// memory.
    #[inline(always)]
    #[tactic(auto, using(crate::proofs::Actions::left_behind, crate::proofs::Actions::first_of_part))]
    pub fn take(&mut self) -> Option<Action<L>>
        ensures some { IfSome result (λ a. self.old ≡ a ∷ self.new) }
        ensures none { IfNone result ((self.old ≡ []) × (self.new ≡ [])) }
    {
        let place = self.next;
        if place >= self.end {
            return None;
        }
        self.next += 1;
        Some(mem::replace(&mut self.items[place], Action::ClockOff { clock: 0 }))
    }

    /// Passes by the first action, where there is one: it stays where it stands until another is written over it. It
    /// takes no memory.
    #[inline(always)]
    #[tactic(auto, using(crate::proofs::Actions::passed))]
    pub fn skip(&mut self)
        ensures { self.new ≡ drop 1 self.old }
    {
        if self.next < self.end {
            self.next += 1;
        }
    }

    /// How many actions there are.
    pub fn len(&self) -> usize
        ensures { result ≡ length self.now }
    {
        self.left().len()
    }

    /// Whether there are no actions.
    pub fn is_empty(&self) -> bool
        ensures { result ≡ (length self.now == 0) }
    {
        self.left().is_empty()
    }

    /// The action at an index, so that actions can be gone over in order without being copied.
    pub fn get(&self, index: usize) -> Option<&Action<L>>
        ensures { IsItemAt self.now index result }
    {
        self.left().get(index)
    }

    /// Leaves no actions, in constant time. The buffer stays allocated, and what the actions hold is let go when others
    /// are written over them.
    pub fn clear(&mut self)
    where
        L: Drop,
        ensures { self.new ≡ [] }
    {
        self.end = 0;
        self.next = 0;
    }

    /// Whether one of the actions turns the clock off.
    pub fn turns_off(&self, clock: u16) -> bool
        ensures { result ≡ turns_off clock self.now }
    {
        self.left().iter().any(|a| matches!(a, Action::ClockOff { clock: c } if *c == clock))
    }
}

/// A kind of element. The components of a simulation are elements of one type, which may be an enum of kinds.
/// `clock_on`, `is_primary`, `is_done`, `fits`, `fits_load`, `channels`, `flow` and `stats` take no memory.
pub trait Element: Drop {
    /// What events carry to such elements.
    type Load: Payload;

    /// What there is to know of the kind.
    ghost kind: { Kind Self Self.Load };

    /// The states that a run can go on from, at a time.
    ghost safe: { Wiring → ℕ → State Self Self.Load → Type 0 };

    /// How its elements and their loads are saved.
    ghost saving: { Saving Self Self.Load };

    /// Handles a cause at the time `now`, in picoseconds, and adds what it asks for to `acts`.
    /// After an error nothing is known of the element and of `acts`.
    fn handle(
        &mut self,
        now: u64,
        cause: &Cause<Self::Load>,
        acts: &mut Acts<Self::Load>,
    ) -> Result<(), AllocError>
        requires early { now < 2 ^ 62 }
        requires meets { kind.Meets self.old now cause.now }
        ensures state { OnOk result (self.new ≡ (kind.handled self.old now cause.now).state) }
        ensures actions { OnOk result (acts.new ≡ acts.old ++ (kind.handled self.old now cause.now).actions) };

    /// Writes the element's state, once its start event was handled: the fields of its kind, then its statistics.
    /// It fails only where no memory is left, and nothing is then known of `out`.
    fn save(&self, out: &mut Writer) -> Result<(), AllocError>
        requires { kind.begun self.now ≡ true }
        ensures { OnOk result (out.new ≡ out.old ++ saving.spell self.now) };

    /// Takes on a state that was written, as one whose start event was handled. Settings, which aren't written,
    /// stay. After a refusal nothing is known of the element and of the reader.
    fn restore(&mut self, alloc: Global, bytes: &mut Reader<'_>) -> Result<(), RestoreFault>
        ensures { Gives (λ u. self.new) result bytes.new (saving.read self.old bytes.old) };

    /// Reads a load that was written, as one that comes to this element. It takes no memory. After a refusal
    /// nothing is known of the reader.
    fn read_load(&self, bytes: &mut Reader<'_>) -> Result<Self::Load, RestoreFault>
        ensures { Tells (λ y. y) result bytes.new (saving.read_load self.now bytes.old) };

    /// Whether the element is such as a run may leave it that handled what came before the time `at`, in
    /// picoseconds.
    fn fits(&self, at: u64) -> bool
        ensures { result ≡ kind.fits self.now at };

    /// Whether a cause that brings a load may come to the element after all that came before the time `at`, in
    /// picoseconds.
    fn fits_load(&self, cause: &Cause<Self::Load>, at: u64) -> bool
        ensures { result ≡ kind.fits_load self.now cause.now at };

    /// Whether the element keeps the simulation going until it is done.
    fn is_primary(&self) -> bool
        ensures { result ≡ kind.primary self.now };

    /// Whether the element agrees to end.
    fn is_done(&self) -> bool
        ensures { result ≡ kind.done self.now };

    /// Whether a clock is on.
    fn clock_on(&self, clock: u16) -> bool
        ensures { result ≡ kind.ticks self.now clock };

    /// How many channels a port has. Ports outside of networks have none.
    fn channels(&self, port: u16) -> u16
        ensures { result ≡ kind.channels self.now port };

    /// What stands at a channel of a port, in flits.
    fn flow(&self, port: u16, channel: u8) -> Flow
        requires there { channel < kind.channels self.now port }
        requires fits { kind.fits self.now (2 ^ 62) ≡ true }
        ensures { result ≡ kind.flow self.now port channel };

    /// The statistics that are kept.
    fn stats(&self) -> &StatSet
        ensures { result.now ≡ kind.stats self.now };

    /// What an engine rests on.
    ghost laws: { World kind safe };

    /// What checkpoints rest on.
    ghost saved: { SavingLaws kind saving safe Self.Load.weighs Self.Load.spells };
}
