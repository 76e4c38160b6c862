//! The form of checkpoints: bytes that spell a state between events, and the state that bytes spell.
#![tactic(auto)]

ghost use Rattle.std.specs.Prelude.{List, ℕ, Option};
ghost use Rattle.ss_wire.specs.Wire.{IsBytes};
ghost use Rattle.ss_model.specs.Wiring.{Wiring};
ghost use Rattle.ss_ckpt.specs.Spells.{HasOneSpelling};

mod fault;
mod head;
mod reading;
#[cfg(test)]
mod tests;

pub use fault::CkptFault;
pub use head::{Head, read_head};
pub use reading::{Saved, read};
use ss_element::Element;

/// A law: whatever graph texts make, the bytes of a checkpoint spell what the form reads of them, and a state that bytes
/// spell is what the form reads. So no state has two spellings, and no bytes spell two states.
pub fn a_checkpoint_has_one_spelling<E: Element>()
    ensures { (makes : List ℕ → Option (List E × Wiring)) (bytes : List ℕ) → IsBytes bytes → HasOneSpelling E.saving makes bytes }
{}
