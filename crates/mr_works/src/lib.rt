//! Routers and endpoints keep a network's order: each of their calls is a list of moves of packets along the packets' paths, and
//! what they send leaves one after another. Over components that are wired as a topology says these paths end. It has no code: its
//! definitions stand in `specs/`.
#![tactic(auto)]

ghost use Rattle.mr_moves.specs.Laws.{TellsApart};
ghost use Rattle.mr_order.specs.Ways.{KindWays};
ghost use Rattle.mr_router.specs.Kind.{router_kind, router_allowed};
ghost use Rattle.mr_nic.specs.Kind.{endpoint_kind, endpoint_allowed};
ghost use Rattle.mr_works.specs.Flows.{same_flow};
ghost use Rattle.mr_works.specs.Fresh.{RoutersBeginEmpty, TestsBeginFresh, TrafficBeginsFresh};
ghost use Rattle.mr_works.specs.Routers.{router_ways};
ghost use Rattle.mr_works.specs.Endpoints.{endpoint_ways};
ghost use Rattle.mr_order.specs.Numbers.{KindNumbers};
ghost use Rattle.mr_works.specs.Numbers.{router_numbering, endpoint_numbering};
ghost use Rattle.mr_order.specs.Expected.{KindExpects};
ghost use Rattle.mr_works.specs.Expected.{router_expecting, endpoint_expecting, RoutersEndNone, EndpointsEndTheirs};
ghost use Rattle.mr_works.specs.Walks.{WiredPathsEnd, RoutersFollow, EndpointsFollow};

/// A router's calls move packets from the front of an input queue to the back of the output queue of their route, and from the front
/// of an output queue onto its line; what comes goes to the back of its input queue. No packet leaves before its line is free.
#[tactic(auto, using(crate::proofs::Routers::router_keeps_order))]
pub fn a_router_keeps_a_networks_order()
    ensures { KindWays router_kind router_allowed router_ways }
{}

/// An endpoint's calls inject the packet that is made at the back of its output queue, move packets from the front of an output
/// queue onto the line, and deliver those in front of its input queues. No packet leaves before the line is free.
#[tactic(auto, using(crate::proofs::Endpoints::endpoint_keeps_order))]
pub fn an_endpoint_keeps_a_networks_order()
    ensures { KindWays endpoint_kind endpoint_allowed endpoint_ways }
{}

/// Flows are told apart by source, destination and virtual network.
#[tactic(auto, using(crate::proofs::Telling::flows_apart))]
pub fn flows_are_told_apart()
    ensures { TellsApart same_flow }
{}

/// Over components that are wired as a topology says, whose routes end, each flow begins at one endpoint, and its path ends at the
/// component of its destination.
pub fn wired_paths_end<S, L, P>()
    ensures { WiredPathsEnd S L P }
{}

/// Endpoints number the packets of each flow one after another from 0, as long as a generator has a number for each endpoint, none
/// above the number of packets that it made; routers inject none.
pub fn endpoints_number_their_packets()
    ensures endpoints { KindNumbers endpoint_kind endpoint_allowed endpoint_ways endpoint_numbering }
    ensures routers { KindNumbers router_kind router_allowed router_ways router_numbering }
{}

/// An endpoint that is delivered packets for it, numbered on from what it expects, expects as many more of each flow, and tells its
/// statistics of each that it is not out of order and how many flits it has; to a router none is delivered.
pub fn endpoints_expect_what_comes()
    ensures endpoints { KindExpects endpoint_kind endpoint_allowed endpoint_ways endpoint_numbering endpoint_expecting }
    ensures routers { KindExpects router_kind router_allowed router_ways router_numbering router_expecting }
{}

/// The flows that end at an endpoint are those to it; none ends at a router.
pub fn flows_end_at_their_endpoints()
    ensures routers { RoutersEndNone }
    ensures endpoints { EndpointsEndTheirs }
{}

/// Flows leave a router by its topology's routes; they begin and end at their endpoints.
#[tactic(auto, using(crate::proofs::Walking::routers_follow, crate::proofs::Walking::endpoints_follow))]
pub fn flows_follow_the_topology()
    ensures routers { RoutersFollow }
    ensures endpoints { EndpointsFollow }
{}

/// Routers and endpoints that were made hold no packets, and endpoints have counted none and expect each flow from 0 on.
pub fn what_was_made_begins_fresh()
    ensures routers { RoutersBeginEmpty }
    ensures tests { TestsBeginFresh }
    ensures traffic { TrafficBeginsFresh }
{}
