//! What a run is: a graph, its division into parts, when the run is cut, and what it begins from. And which elements
//! graphs stand for.
#![tactic(auto)]

ghost use Rattle.std.specs.Prelude.{◌≡◌};
ghost use Rattle.ss_run.specs.Meaning.{Meaning, MeaningLaws};
ghost use Rattle.ss_run.specs.Run.{FittingRuns};

#[cfg(test)]
mod tests;

use ss_element::Element;
use ss_graph::Graph;
use ss_part::Partition;
use ss_units::Items;
use ss_window::Cuts;
use std::sync::Arc;

/// What a run begins from.
#[derive(Drop)]
pub enum Origin {
    /// The start of the simulation, at time 0.
    Start,
    /// The state that the bytes of a checkpoint spell, at its time.
    Saved { bytes: Items<u8> },
}

/// A run that is divided into parts. It may be shared by threads.
#[derive(Drop)]
pub struct RunSpec {
    pub graph: Graph,
    /// The part of each component of the graph.
    pub partition: Partition,
    /// Where the run begins and stops, and when its parts are cut at the latest.
    pub cuts: Cuts,
    pub origin: Origin,
}

/// A run that all its parts know.
pub type RunId = Arc<RunSpec>;

/// Elements that graphs stand for.
pub trait Simulated: Element {
    /// Which graphs stand for a run of such elements, from what they begin with, and how that run begins.
    ghost meaning: { Meaning Self Self.Load };

    /// What is accepted begins in a safe state, no earlier than the last event before it, with the graph's lines as wires.
    ghost opens: { MeaningLaws Self.safe meaning };
}

/// A run that fits may be made in its parts: they are a division of its components, and its beginning is safe.
pub fn a_fitting_run_may_be_made<E: Simulated>()
    ensures { FittingRuns E.kind E.meaning E.safe }
{}
