//! The checkpoints of a simulation in parts: what the pieces of one cut make together is the state of the one ordered list.
//! The definitions stand in `specs/`; the theorem stands on the function here.
#![tactic(auto)]

ghost use Rattle.ss_parts.specs.Windows.{OfRuns};
ghost use Rattle.ss_cut.specs.Cut.{PiecesMake};

use ss_element::Element;

/// The pieces that all parts hand over at the end of a window, or where a window begins, spell together the components and
/// the events of the one list then, each in its order, and nothing of how the simulation is divided. No component's state
/// stands in two of them.
pub fn the_pieces_of_a_cut_make_its_state<E: Element>()
    ensures { OfRuns E.kind E.safe (λ kind w d s. PiecesMake kind E.saving w d s) }
{}
