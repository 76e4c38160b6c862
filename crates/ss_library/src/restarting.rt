//! Saved states over graphs that were made.

ghost use Rattle.std.specs.Prelude.{ℕ, List};
ghost use Rattle.ss_wire.specs.Wire.{IsBytes};
ghost use Rattle.ss_model.specs.Step.{State};
ghost use Rattle.ss_graph.specs.declared.graph.Graph.{Graph};
ghost use Rattle.ss_ckpt.specs.Spells.{Spells};
ghost use Rattle.mr_flow.specs.declared.Load.{Load};
ghost use Rattle.ss_library.specs.declared.kinds.Any.{Any};
ghost use Rattle.ss_library.specs.Saved.{any_saving};
ghost use Rattle.ss_library.specs.Make.{model_of};
ghost use Rattle.ss_library.specs.Meaning.{IsMade};
ghost use Rattle.ss_library.specs.Judging.{CanBeJudged, MayResume};

/// A state that was read over the model of an accepted graph can be judged: the model stands, its components and lines have numbers
/// of 32 bits, and each of its channels is named by a byte.
pub fn a_made_model_can_be_judged()
    ensures { (g : Graph) → IsMade g → CanBeJudged g }
{}

/// What bytes spell over an accepted graph is what a run begins with that goes on from them, and the run may where it is sound.
pub fn a_run_goes_on_from_what_is_spelled()
    ensures { (g : Graph) (bytes : List ℕ) (at : ℕ) (s : State Any Load) → IsMade g → IsBytes bytes → Spells any_saving (model_of g).wires (model_of g).elements bytes g.text at s → MayResume g bytes at s }
{}
