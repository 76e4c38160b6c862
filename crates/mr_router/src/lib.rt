//! A high-radix router after Merlin's.
#![tactic(auto)]

mod crossbar;
mod element;
mod laws;
mod listed;
mod outputs;
mod port;
mod pumping;
mod router;
mod settings;
mod state;
mod topology;
mod waiting;
mod ways;

pub use laws::{
    a_router_acts_within_bounds, a_router_keeps_fitting, a_router_keeps_its_clock,
    a_router_keeps_its_settings, a_router_keeps_the_balance, a_router_keeps_the_laws_of_a_kind,
    a_router_that_fits_is_ready,
};
pub use listed::Listed;
pub use mr_arb::ArbKind;
pub use outputs::{Choice, Outputs};
pub use port::Port;
pub use router::Router;
pub use settings::RouterSettings;
pub use topology::Topology;

#[cfg(test)]
mod tests;
