//! Endpoints of networks after Merlin: one that sends messages to all others, and a generator of traffic.
#![tactic(auto)]

mod laws;
mod nic;
mod numbers;
mod pattern;
mod state;
mod station;
mod test_nic;
mod traffic;

pub use laws::new_endpoints_can_begin;
pub use nic::{Endpoint, Places, Source};
pub use numbers::Numbers;
pub use pattern::{Pattern, destination};
pub use test_nic::TestNic;
pub use traffic::TrafficGen;

#[cfg(test)]
mod tests;
