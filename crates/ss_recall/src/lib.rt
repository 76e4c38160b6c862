//! The bytes of a checkpoint, read back and judged: the graph whose text stands in them, and the saved state from which a run of
//! that graph goes on.
#![tactic(auto)]

ghost use Rattle.std.specs.Prelude.{ℕ, List};
ghost use Rattle.ss_wire.specs.Wire.{IsBytes};
ghost use Rattle.ss_model.specs.Step.{State};
ghost use Rattle.ss_safe.specs.Sound.{Sound};
ghost use Rattle.ss_ckpt.specs.Spells.{Spells};
ghost use Rattle.mr_flow.specs.declared.Load.{Load};
ghost use Rattle.ss_graph.specs.Judge.{graph_of};
ghost use Rattle.ss_library.specs.declared.kinds.Any.{Any};
ghost use Rattle.ss_library.specs.Kinds.{any_kind};
ghost use Rattle.ss_library.specs.Saved.{any_saving};
ghost use Rattle.ss_library.specs.Make.{model_of};
ghost use Rattle.ss_recall.specs.Recall.{Reading, Recalls, IsAccepted};
ghost use Rattle.ss_recall.specs.Laws.{StandForOneThing, GoOn, AreSpelled};

mod begun;
mod fault;
mod recalling;
#[cfg(test)]
mod tests;

pub use fault::RecallFault;
pub use recalling::{Recalled, recall};

/// A law: bytes stand for at most one graph and state, or they have one first fault, and never both.
pub fn bytes_stand_for_one_thing()
    ensures { (bytes : List ℕ) → StandForOneThing bytes }
{}

/// A law: bytes that spell a sound state, over the wires and the first elements of an accepted graph's text, are recalled as that
/// state, and a run of that graph may go on from them.
pub fn what_is_spelled_is_recalled()
    ensures { (text bytes : List ℕ) (at : ℕ) (s : State Any Load) → IsAccepted text → IsBytes bytes → Spells any_saving (model_of (graph_of text)).wires (model_of (graph_of text)).elements bytes text at s → Sound any_kind (model_of (graph_of text)).wires at s → GoOn text bytes at s }
{}

/// A law: bytes that are recalled spell what is recalled, over the wires and the first elements of an accepted graph's text.
pub fn what_is_recalled_is_spelled()
    ensures { (bytes : List ℕ) (x : Reading) → IsBytes bytes → Recalls bytes x → AreSpelled bytes x }
{}
