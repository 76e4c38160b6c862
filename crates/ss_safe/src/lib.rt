//! Elements that keep the local laws of their kind make a world: from a safe state each step can be taken,
//! and leaves a safe state. The definitions and the theorems stand in `specs/`.
#![tactic(auto)]

ghost use Rattle.std.specs.Prelude.{◌≡◌, ℕ, ◌-◌, ◌<◌, ◌≤◌, ◌^◌, List, slice_get};
ghost use Rattle.ss_model.specs.Wiring.{Wiring};
ghost use Rattle.ss_model.specs.Step.{State, after, IsUntil, opening};
ghost use Rattle.ss_element.specs.World.{World};
ghost use Rattle.ss_safe.specs.Laws.{Allowed, KindLaws, KindSaves};
ghost use Rattle.ss_safe.specs.Safe.{IsPair, Safe, Stands, Opens};
ghost use Rattle.ss_safe.specs.Sound.{Sound, AllAlike, Restored, IsRead};

#[cfg(test)]
mod tests;

use ss_element::Element;

/// An element that keeps the local laws of its kind.
pub trait Local: Element {
    /// What may be of the kind's elements.
    ghost allowed: { Allowed Self Self.Load };

    /// What the kind keeps by itself.
    ghost local: { KindLaws Self.kind allowed };

    /// What the kind keeps of the saving of its elements.
    ghost saves: { KindSaves Self.kind allowed Self.saving };

    /// The states that a run can go on from are those that local laws keep.
    ghost tied: { (w : Wiring) (now : ℕ) (s : State Self Self.Load) → (Self.safe w now s → Safe Self.kind allowed w now s) × (Safe Self.kind allowed w now s → Self.safe w now s) };
}

/// Local laws give what an engine rests on.
pub fn local_laws_give_a_world<E: Local>()
    ensures { World E.kind (Safe E.kind E.allowed) }
{}

/// A simulation that is about to begin is safe at time 0.
pub fn an_opening_is_safe<E: Local>()
    ensures { (w : Wiring) (xs : List E) → Opens E.kind E.allowed w xs → Safe E.kind E.allowed w 0 (opening xs) }
{}

/// Where all events before a time of at most 2^62 are handled, the state is safe just before that time.
pub fn a_run_stays_safe<E: Local>()
    ensures { (w : Wiring) (now t n : ℕ) (s : State E E.Load) → Safe E.kind E.allowed w now s → now < t → t ≤ 2 ^ 62 → IsUntil E.kind.handled w t n s → Safe E.kind E.allowed w (t - 1) (after E.kind.handled w n s) }
{}

/// What the local laws keep is what engines know as safe.
pub fn what_is_kept_is_safe<E: Local>()
    ensures { (w : Wiring) (now : ℕ) (s : State E E.Load) → (E.safe w now s → Safe E.kind E.allowed w now s) × (Safe E.kind E.allowed w now s → E.safe w now s) }
{}

/// What is safe stands on wires and elements as they were made.
pub fn what_is_safe_stands<E: Local>()
    ensures { (w : Wiring) (now : ℕ) (s : State E E.Load) → Safe E.kind E.allowed w now s → Stands E.kind E.allowed w s.components }
{}

/// Elements are alike to themselves, and to those that they became by reading.
pub fn elements_stay_alike<E: Local>()
    ensures same { (xs : List E) → AllAlike E.kind xs xs }
    ensures restored { (firsts xs : List E) → Restored E.saving firsts xs → AllAlike E.kind firsts xs }
{}

/// A state that was read at a time from 1 to 2^62, over elements that were made, is safe just before that time where it is
/// sound at it.
pub fn a_sound_state_is_safe<E: Local>()
    ensures { (w : Wiring) (firsts : List E) (at : ℕ) (s : State E E.Load) → Stands E.kind E.allowed w firsts → IsRead E.saving w firsts s → 1 ≤ at → at ≤ 2 ^ 62 → Sound E.kind w at s → Safe E.kind E.allowed w (at - 1) s }
{}

/// Where all events before a time of at most 2^62 are handled, the state is sound at that time.
pub fn a_run_stays_sound<E: Local>()
    ensures { (w : Wiring) (now t n : ℕ) (s : State E E.Load) → Safe E.kind E.allowed w now s → now < t → t ≤ 2 ^ 62 → IsUntil E.kind.handled w t n s → Sound E.kind w t (after E.kind.handled w n s) }
{}

/// And it is as the form of checkpoints has it, over the elements with which the run began or that became those by reading.
pub fn a_run_can_be_saved<E: Local>()
    ensures { (w : Wiring) (firsts : List E) (now t n : ℕ) (s : State E E.Load) → Safe E.kind E.allowed w now s → AllAlike E.kind firsts s.components → now < t → t ≤ 2 ^ 62 → IsUntil E.kind.handled w t n s → IsRead E.saving w firsts (after E.kind.handled w n s) }
{}

/// In a safe state the credits of a line's sender, and the flits in its receiver's queue, are no more than
/// that queue can hold.
pub fn nothing_overflows<E: Local>()
    ensures { (w : Wiring) (now : ℕ) (s : State E E.Load) → Safe E.kind E.allowed w now s → (l k a p b q ch : ℕ) (x y : E) →
        IsPair w l k a p b q → slice_get s.components a ≡ Some x → slice_get s.components b ≡ Some y →
        ch < E.kind.channels x p → ch < E.kind.channels y q →
        ((E.kind.flow x p ch).credits ≤ (E.kind.flow y q ch).capacity) × ((E.kind.flow y q ch).queued ≤ (E.kind.flow y q ch).capacity) }
{}
