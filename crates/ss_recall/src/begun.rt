//! The graph of a text, and its model as a run begins with it.

ghost use Rattle.std.specs.Prelude.{◌≡◌, IfOk, IfErr, if◌then◌else◌};
ghost use Rattle.ss_graph.specs.Faults.{is_memory};
ghost use Rattle.ss_network.specs.Faults.{is_memory as is_making_memory};
ghost use Rattle.ss_recall.specs.Begun.{IsBegun, RefusesText, text_fault};
ghost use Rattle.ss_recall.specs.declared.fault.RecallFault.TheVariants as refusal;

use crate::fault::RecallFault;
use ss_ckpt::CkptFault;
use ss_element::Model;
use ss_graph::{Graph, GraphFault, read};
use ss_library::{Any, MakeFault, make};
use std::alloc::Global;

/// Where the graph text of a checkpoint begins, in bytes from the start.
const TEXT_AT: u64 = 28;

/// A graph with its model.
#[derive(Drop)]
pub struct Begun {
    pub graph: Graph,
    pub model: Model<Any>,
}

/// By the first fault of a text.
fn unread(fault: &GraphFault) -> RecallFault
    ensures { result ≡ (if is_memory fault.now then refusal.NoMemory else text_fault) }
{
    match fault {
        GraphFault::NoMemory => RecallFault::NoMemory,
        _ => RecallFault::Form(CkptFault::Value { at: TEXT_AT }),
    }
}

/// By the first fault of a graph's making.
fn unmade(fault: &MakeFault) -> RecallFault
    ensures { result ≡ (if is_making_memory fault.now then refusal.NoMemory else text_fault) }
{
    match fault {
        MakeFault::NoMemory => RecallFault::NoMemory,
        _ => RecallFault::Form(CkptFault::Value { at: TEXT_AT }),
    }
}

/// The graph of a checkpoint's text with its model. A text with a fault, of its own or of the graph's making, is one with
/// `Value` where it begins. `NoMemory` comes only where no memory was left.
pub fn begun_of(alloc: Global, text: &[u8]) -> Result<Begun, RecallFault>
    ensures begun { IfOk result (λ b. IsBegun text.now b.graph (record { elements = b.model.elements.items; wires = b.model.wires })) }
    ensures refused { IfErr result (RefusesText text.now) }
{
    let graph = match read(alloc, text) {
        Ok(graph) => graph,
        Err(fault) => return Err(unread(&fault)),
    };
    let model = match make(alloc, &graph) {
        Ok(model) => model,
        Err(fault) => return Err(unmade(&fault)),
    };
    Ok(Begun { graph, model })
}
