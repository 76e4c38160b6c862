//! Graphs, and the judge of their texts.
#![tactic(auto)]

mod component;
mod fault;
mod graph;
mod line;
mod link;
mod options;
mod param;
mod place;
mod reading;
mod statistic;
mod subcomponent;
#[cfg(test)]
mod tests;

pub use fault::{GraphFault, LimitKind};
pub use graph::{Graph, Join, Options, Part, PortEnd, StatAsk};
pub use reading::read;
