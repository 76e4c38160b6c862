//! Reading the bytes of a checkpoint back, with their first fault.

ghost use Rattle.std.specs.Prelude.{◌≡◌, IfOk, IfErr, OnOk};
ghost use Rattle.ss_safe.specs.Sound.{Sound};
ghost use Rattle.ss_ckpt.specs.Spells.{IsHead};
ghost use Rattle.ss_ckpt.specs.Views.{fields_of, state_of};
ghost use Rattle.ss_restart.specs.Faults.{IsFirstFault, IsSpelled};
ghost use Rattle.ss_library.specs.Kinds.{any_kind, any_allowed};
ghost use Rattle.ss_library.specs.Saved.{any_saving};
ghost use Rattle.ss_recall.specs.Begun.{IsBegun};
ghost use Rattle.ss_recall.specs.Recall.{IsRefusal};
ghost use Rattle.ss_recall.specs.Recalled.{IsRecalled};

use crate::begun::{Begun, begun_of};
use crate::fault::RecallFault;
use ss_ckpt::{Head, Saved, read, read_head};
use ss_graph::Graph;
use ss_library::Any;
use ss_restart::{RestartFault, sound};
use std::alloc::Global;

/// What the bytes of a checkpoint stand for: the graph whose text stands in them, and the state of its model from which a run
/// goes on. Times are in picoseconds.
#[derive(Drop)]
pub struct Recalled {
    pub graph: Graph,
    pub saved: Saved<Any>,
}

/// The fields before the states of the components.
fn head_of(alloc: Global, bytes: &[u8]) -> Result<Head, RecallFault>
    ensures found { IfOk result (λ h. IsHead bytes.now (fields_of h) h.body) }
    ensures refused { IfErr result (IsRefusal bytes.now) }
{
    let head = read_head(alloc, bytes)?;
    Ok(head)
}

/// The state, if a run can go on from it.
fn judged(saved: Saved<Any>) -> Result<Saved<Any>, RestartFault>
    requires { IsSpelled any_kind any_allowed any_saving saved.model.wires saved.time (state_of saved) }
    ensures same { IfOk result (λ s. s ≡ saved) }
    ensures sound { OnOk result (Sound any_kind saved.model.wires saved.time (state_of saved)) }
    ensures first { IfErr result (IsFirstFault any_kind saved.model.wires saved.time (state_of saved)) }
{
    sound(&saved)?;
    Ok(saved)
}

/// The state behind the head, over the graph with its model.
fn recalled_over(
    alloc: Global,
    bytes: &[u8],
    head: &Head,
    begun: Begun,
) -> Result<Recalled, RecallFault>
    requires head { IsHead bytes.now (fields_of head.now) head.now.body }
    requires begun { IsBegun head.now.graph.items begun.graph (record { elements = begun.model.elements.items; wires = begun.model.wires }) }
    ensures recalled { IfOk result (IsRecalled bytes.now) }
    ensures refused { IfErr result (IsRefusal bytes.now) }
{
    let Begun { graph, model } = begun;
    let spelled = read(alloc, bytes, head, model)?;
    let saved = judged(spelled)?;
    Ok(Recalled { graph, saved })
}

/// The graph and the saved state that the bytes of a checkpoint stand for, or the first fault. The form of the bytes is judged
/// first, from left to right, and with it the graph whose text stands in them: a text that isn't a graph's, or whose graph can't be
/// made, is `Value` at 28, where it begins. Then the state is judged, as `ss_restart::sound` does. `NoMemory` comes only where no
/// memory was left. A run of the graph may go on from what is answered, divided in whatever parts. Places are in bytes from the
/// start. What is judged, and in which order, is this project's own.
pub fn recall(alloc: Global, bytes: &[u8]) -> Result<Recalled, RecallFault>
    ensures recalled { IfOk result (IsRecalled bytes.now) }
    ensures refused { IfErr result (IsRefusal bytes.now) }
{
    let head = head_of(alloc, bytes)?;
    let begun = begun_of(alloc, head.graph.as_slice())?;
    recalled_over(alloc, bytes, &head, begun)
}
