//! Divisions of a graph's components into parts.
#![tactic(auto)]

ghost use Rattle.std.specs.Prelude.{◌≡◌, ◌⊎◌, ◌<◌, ◌*◌, ℕ, length, slice_index, IfOk, IfErr, Some, None, option_map, max, ◌≤◌};
ghost use Rattle.ss_graph.specs.Fit.{IsFit};
ghost use Rattle.ss_part.specs.declared.How.TheVariants.{Latency, SelfNamed};
ghost use Rattle.ss_part.specs.declared.PartFault.TheVariants.{NoMemory, BadThread};
ghost use Rattle.ss_part.specs.Assigned.{misplaced, refusal, assigned};
ghost use Rattle.ss_part.specs.Division.{AreBelow};
ghost use Rattle.ss_part.specs.Cut.{cut, IsBest, crosses as line_crosses};

mod forest;
mod lists;
mod nearness;
#[cfg(test)]
mod search_tests;
#[cfg(test)]
mod tests;

use lists::{first_misplaced, linear, round_robin, self_named, single};
use nearness::by_latency;
use ss_graph::Graph;
use std::alloc::{AllocError, AllocFailed, Global};
use std::marker::Model;
use thiserror::Error;

/// How the components of a graph are divided into parts.
#[derive(Clone, Copy, Debug, PartialEq, Eq)]
pub enum How {
    /// In order, into parts of nearly the same size.
    Linear,
    /// In turn.
    RoundRobin,
    /// So that the least latency between two parts is as great as it can be.
    Latency,
    /// Each into the part of the thread that it names for itself.
    SelfNamed,
    /// All into part 0.
    Single,
}

/// Why a graph isn't divided.
#[derive(Clone, Copy, Debug, PartialEq, Eq, Drop, Error)]
pub enum PartFault {
    /// The number of parts is 0, above 32, or above the greater of 1 and the number of components.
    #[error("no division into {asked} parts")]
    Parts { asked: u32 },
    /// This component is the first that names no thread, or one that is no part.
    #[error("component {component} names no part")]
    BadThread { component: u32 },
    /// There was no memory.
    #[error("no memory")]
    NoMemory,
}

impl From<AllocError> for PartFault {
    ghost from_gives = { λ _ e. e ≡ NoMemory };

    fn from(_e: AllocError) -> PartFault {
        PartFault::NoMemory
    }
}

/// A division of components into parts. Contracts see it as the number of parts and the list of the components' part
/// numbers, each of which is below the number of parts.
#[derive(Drop)]
pub struct Partition {
    parts: u32,
    list: Vec<u32>,
}

impl Model for Partition {
    ghost use Rattle.ss_part.specs.Division.{Division, AreBelow};

    ghost Value = { Division };

    ghost view = { λ d. record { parts = d.parts; list = d.list.items } };

    ghost invariant = { λ d. AreBelow d.list.items d.parts };
}

impl Partition {
    /// How many parts there are. It takes no memory.
    pub fn parts(&self) -> u32
        ensures { result ≡ self.now.parts }
    {
        self.parts
    }

    /// The number of a component's part. It takes no memory.
    pub fn part_of(&self, component: u32) -> u32
        requires { component < length self.now.list }
        ensures value { result ≡ slice_index self.now.list component }
        ensures below { result < self.now.parts }
    {
        self.list[component as usize]
    }

    /// The number of each component's part, in the order of the graph. It takes no memory.
    pub fn owners(&self) -> &[u32]
        ensures { result.now ≡ self.now.list }
    {
        &self.list
    }
}

/// Each component goes into the part of the thread that it names, or the first that isn't placed so.
#[tactic(auto, using(crate::proofs::Placing::named_below), unfolding(crate::specs::Assigned::misplaced, crate::specs::Assigned::assigned))]
fn by_thread(alloc: Global, graph: &Graph, parts: u32) -> Result<Vec<u32>, PartFault>
    requires { IsFit graph.now }
    ensures ok { IfOk result (λ v. (misplaced graph.now parts SelfNamed ≡ None) × (v.items ≡ assigned graph.now parts SelfNamed)) }
    ensures whole { IfOk result (λ v. length v.items ≡ length graph.now.components) }
    ensures below { IfOk result (λ v. AreBelow v.items parts) }
    ensures err { IfErr result (λ e. (e ≡ NoMemory) ⊎ (option_map BadThread (misplaced graph.now parts SelfNamed) ≡ Some e)) }
{
    let components = graph.components.as_slice();
    if let Some(component) = first_misplaced(components, parts) {
        return Err(PartFault::BadThread { component });
    }
    Ok(self_named(alloc, components)?)
}

/// The list of the components' parts, or the first component that isn't placed.
#[tactic(auto, unfolding(crate::specs::Assigned::misplaced, crate::specs::Assigned::assigned))]
fn list_of(alloc: Global, graph: &Graph, parts: u32, how: How) -> Result<Vec<u32>, PartFault>
    requires fit { IsFit graph.now }
    requires some { 1 ≤ parts }
    requires most { parts ≤ 32 }
    requires few { parts ≤ max 1 (length graph.now.components) }
    ensures ok { IfOk result (λ v. (misplaced graph.now parts how ≡ None) × (v.items ≡ assigned graph.now parts how)) }
    ensures err { IfErr result (λ e. (e ≡ NoMemory) ⊎ (option_map BadThread (misplaced graph.now parts how) ≡ Some e)) }
    ensures whole { IfOk result (λ v. length v.items ≡ length graph.now.components) }
    ensures below { IfOk result (λ v. AreBelow v.items parts) }
{
    let count = graph.components.as_slice().len();
    match how {
        How::Linear => Ok(linear(alloc, count, parts)?),
        How::RoundRobin => Ok(round_robin(alloc, count, parts)?),
        How::Latency => Ok(by_latency(alloc, graph, parts)?),
        How::SelfNamed => by_thread(alloc, graph, parts),
        How::Single => Ok(single(alloc, count)?),
    }
}

/// Divides a graph's components into parts, which are numbered from 0. The number of a component's part is, of `n`
/// components in the order of the graph and `p` parts:
///
/// - `Linear`: for component `c`, `c * p / n` rounded down;
/// - `RoundRobin`: `c` modulo `p`;
/// - `Single`: 0;
/// - `SelfNamed`: the thread that the component names, as SST's partitioner of this name has it;
/// - `Latency`: at first each component is a group of its own. A link's weight is the lesser latency of its two
///   lines. By weight, then by number, each link joins the groups of its two ends under the name of the lower, until
///   `p` groups are left. Where the links end first, the two groups of highest names are joined until `p` are left.
///   The groups are the parts, in order of name. No part is empty then, and no division into `p` parts, none of them
///   empty, has a greater least latency between two parts. This partitioner is the project's own.
///
/// It answers `Parts` exactly where the number of parts is 0, above 32, or above the greater of 1 and the number of
/// components, and `BadThread` exactly where the partitioner is `SelfNamed` and that component is the first that
/// names no thread or one that isn't below `p`. `NoMemory` may come at any place.
#[tactic(auto, unfolding(crate::specs::Assigned::refusal, crate::specs::Assigned::can_have))]
pub fn assign(alloc: Global, graph: &Graph, parts: u32, how: How) -> Result<Partition, PartFault>
    requires { IsFit graph.now }
    ensures ok { IfOk result (λ d. (refusal graph.now parts how ≡ None) × (d ≡ record { parts = parts; list = assigned graph.now parts how })) }
    ensures err { IfErr result (λ e. (e ≡ NoMemory) ⊎ (refusal graph.now parts how ≡ Some e)) }
    ensures whole { IfOk result (λ d. length d.list ≡ length graph.now.components) }
    ensures below { IfOk result (λ d. AreBelow d.list d.parts) }
    ensures best { IfOk result (λ d. how ≡ Latency → 0 < length graph.now.components → IsBest graph.now d.list parts) }
{
    let most = graph.components.as_slice().len().max(1);
    if parts < 1 || parts > 32 || parts as usize > most {
        return Err(PartFault::Parts { asked: parts });
    }
    let list = list_of(alloc, graph, parts, how)?;
    Ok(Partition { parts, list })
}

/// Whether a line leads from one part to another.
#[tactic(auto, unfolding(crate::specs::Cut::crosses))]
fn crosses(graph: &Graph, partition: &Partition, line: u32) -> bool
    requires fit { IsFit graph.now }
    requires whole { length partition.now.list ≡ length graph.now.components }
    requires within { line < 2 * length graph.now.links }
    ensures { result ≡ line_crosses graph.now partition.now.list line }
{
    let (sender, receiver) = graph.line_ends(line);
    partition.part_of(sender) != partition.part_of(receiver)
}

/// The least latency of a line between two parts in picoseconds, and 2^62 where there is none: how far one part may
/// run ahead of what the others send it. It takes no memory.
pub fn lookahead(graph: &Graph, partition: &Partition) -> u64
    requires fit { IsFit graph.now }
    requires whole { length partition.now.list ≡ length graph.now.components }
    ensures { result ≡ cut graph.now partition.now.list }
{
    let mut least = 1 << 62;
    for line in 0..2 * graph.links.as_slice().len() as u32 {
        if crosses(graph, partition, line) {
            least = least.min(graph.latency(line));
        }
    }
    least
}
