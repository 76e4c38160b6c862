//! The kinds of elements that a graph may name as one type, and the making of a graph's elements and wires.
#![tactic(auto)]

mod element;
mod housed;
mod kinds;
mod making;
#[cfg(test)]
mod networks;
mod param;
mod restarting;
mod simulated;
mod stats;
mod table;
#[cfg(test)]
mod tests;

pub use housed::Housed;
pub use kinds::Any;
pub use making::make;
pub use mr_flow::Load;
pub use restarting::{a_made_model_can_be_judged, a_run_goes_on_from_what_is_spelled};
pub use ss_network::MakeFault;
