//! What is true of a network that passes its checks, whatever its topology.

ghost use Rattle.std.specs.Prelude.{◌≡◌, ℕ, List, None};
ghost use Rattle.ss_graph.specs.Checks.{first_fault};
ghost use Rattle.ss_network.specs.Params.{Params};
ghost use Rattle.ss_network.specs.Asks.{router_checks, router_of, endpoint_checks, endpoint_of, generator_checks, generator_of};
ghost use Rattle.ss_network.specs.Ranges.{IsFitRouter, IsFitEndpoint};
ghost use Rattle.ss_model.specs.Wiring.{Wiring};
ghost use Rattle.ss_network.specs.declared.member.Member.{Member};
ghost use Rattle.ss_network.specs.Joined.{IsNetwork, LeadsWell, ComesHome, SameChannels, SameLanes, AllAlike, AllGuests, OneOfEach, LeastOfAll};

/// A router's port that leads somewhere is linked to its peer, and one that leads nowhere isn't linked.
#[tactic(auto, using(crate::proofs::Joined::leads_well))]
pub fn ports_lead_to_their_peers()
    ensures { (w : Wiring) (ms : List Member) → IsNetwork w ms → LeadsWell w ms }
{}

/// An endpoint is linked to a router's port that leads to it.
#[tactic(auto, using(crate::proofs::Joined::comes_home))]
pub fn endpoints_are_at_their_routers()
    ensures { (w : Wiring) (ms : List Member) → IsNetwork w ms → ComesHome w ms }
{}

/// Both ends of a line have the same channels, and as many of each virtual network.
#[tactic(auto, using(crate::proofs::Joined::same_channels, crate::proofs::Joined::same_lanes))]
pub fn lines_have_equal_channels()
    ensures lanes { (w : Wiring) (ms : List Member) → IsNetwork w ms → SameLanes w ms }
    ensures channels { (w : Wiring) (ms : List Member) → IsNetwork w ms → SameChannels w ms }
{}

/// Each router is as the first one, and the topology has its number.
#[tactic(auto, using(crate::proofs::Alike::all_alike))]
pub fn routers_are_of_one_topology()
    ensures { (w : Wiring) (ms : List Member) → IsNetwork w ms → AllAlike ms }
{}

/// Each endpoint fits the routers, and its messages fit the least queue.
#[tactic(auto, using(crate::proofs::Alike::all_guests, crate::proofs::Alike::least_of_all))]
pub fn endpoints_fit_the_routers()
    ensures guests { (w : Wiring) (ms : List Member) → IsNetwork w ms → AllGuests ms }
    ensures least { (ms : List Member) → LeastOfAll ms }
{}

/// No two routers have one number, and no two endpoints.
#[tactic(auto, using(crate::proofs::Alike::one_of_each))]
pub fn numbers_are_of_one_each()
    ensures { (w : Wiring) (ms : List Member) → IsNetwork w ms → OneOfEach ms }
{}

/// What a router, an endpoint or a generator asks for by parameters that pass is within what can be run: no queue lasts longer than
/// 2^40 ps, and a generator's network and hot endpoint are there.
#[tactic(auto, using(crate::proofs::Ranges::router_fits, crate::proofs::Ranges::endpoint_fits, crate::proofs::Ranges::generator_fits))]
pub fn what_is_asked_for_can_be_run()
    ensures routers { (i : ℕ) (ps : Params) → first_fault (router_checks i ps) ≡ None → IsFitRouter (router_of ps) }
    ensures endpoints { (i : ℕ) (ps : Params) → first_fault (endpoint_checks i ps) ≡ None → IsFitEndpoint (endpoint_of ps) }
    ensures generators { (i : ℕ) (ps : Params) → first_fault (generator_checks i ps) ≡ None → IsFitEndpoint (generator_of ps) }
{}
