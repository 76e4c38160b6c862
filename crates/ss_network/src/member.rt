//! The components of a graph, as far as they are of a network.

use crate::ask::{EndpointAsk, RouterAsk};

/// What a component is in a network.
#[derive(Drop)]
pub enum Member {
    Router(RouterAsk),
    Endpoint(EndpointAsk),
    /// No part of a network.
    Other,
}
