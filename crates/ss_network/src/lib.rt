//! Networks after Merlin's in graphs: what routers and endpoints ask for by their parameters, and whether they are joined as their
//! topology says.
#![tactic(auto)]

mod ask;
mod fault;
mod generator;
mod laws;
mod links;
mod member;
mod names;
mod network;
mod param;
mod place;

pub use ask::{Buffers, EndpointAsk, Pace, RouterAsk, Work, endpoint_at, router_at};
pub use fault::MakeFault;
pub use generator::{Aim, Batch, generator_at};
pub use laws::{
    endpoints_are_at_their_routers, endpoints_fit_the_routers, lines_have_equal_channels,
    numbers_are_of_one_each, ports_lead_to_their_peers, routers_are_of_one_topology,
    what_is_asked_for_can_be_run,
};
pub use links::end_of;
pub use member::Member;
pub use mr_router::Topology;
pub use network::{first_router, is_network, least};
pub use place::{item_place, push_index};
