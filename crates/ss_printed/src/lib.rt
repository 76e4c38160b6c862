//! What the cuts of a run hold is what the run prints and puts: its lines and its checkpoints in their order, up to the first that
//! passes a limit. It has no code: its definitions stand in `specs/`.
#![tactic(auto)]

ghost use Rattle.ss_printed.specs.Laws.{CutsArePrinted};

use ss_run::Simulated;

/// The cuts that a run in parts hands to its lead, with the one that the lead refused, hold the lines and the checkpoints of the one
/// list's run, each once and in order, with the bytes of the list's state at its time; up to the first that passes a limit.
pub fn the_cuts_of_a_run_are_printed<E: Simulated>()
    ensures { CutsArePrinted E.kind E.saving E.meaning }
{}
