//! How a run begins that goes on from a checkpoint: with the state that the checkpoint's bytes spell.
#![tactic(auto)]

ghost use Rattle.std.specs.Prelude.{◌≡◌, ℕ, List};
ghost use Rattle.ss_wire.specs.Wire.{IsBytes};
ghost use Rattle.ss_model.specs.Wiring.{Wiring};
ghost use Rattle.ss_model.specs.Step.{State};
ghost use Rattle.ss_graph.specs.declared.graph.Graph.{Graph};
ghost use Rattle.ss_safe.specs.Safe.{Safe, Stands};
ghost use Rattle.ss_ckpt.specs.Spells.{Spells};
ghost use Rattle.ss_run.specs.declared.Origin.TheVariants as origin;
ghost use Rattle.ss_run.specs.Meaning.{IsOpeningOf};
ghost use Rattle.ss_origin.specs.Openings.{saved_opening, IsGraphOf, SpellsSound};

use ss_safe::Local;

/// Bytes that spell a state at a time open with that state, at that time.
pub fn a_spelled_state_opens<E: Local>()
    ensures { (w : Wiring) (firsts : List E) (text bytes : List ℕ) (at : ℕ) (s : State E E.Load) → IsBytes bytes → Spells E.saving w firsts bytes text at s → saved_opening E.saving w firsts bytes ≡ record { wires = w; time = at; state = s } }
{}

/// Where the elements and the wires are those that a graph makes, bytes that spell a sound state over its text open safely: just
/// before the state's time, with nothing to come before that time, and with the graph's components and lines.
pub fn a_sound_state_opens_safely<E: Local>()
    ensures { (g : Graph) (w : Wiring) (firsts : List E) (bytes : List ℕ) → IsGraphOf g w firsts → Stands E.kind E.allowed w firsts → SpellsSound E.kind E.saving w firsts g.text bytes → IsOpeningOf (Safe E.kind E.allowed) g (origin.Saved bytes) (saved_opening E.saving w firsts bytes) }
{}
