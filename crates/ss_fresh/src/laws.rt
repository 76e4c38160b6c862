//! Laws of networks that are new, each the contract of a function that does nothing.

ghost use Rattle.ss_fresh.specs.Begins.{RoutersBegin, EndpointsBegin, RoutersAreRead, EndpointsAreRead, RoutersSpeak, EndpointsSpeak, LinesAgree};

/// A router or an endpoint of a network, as it is made, can begin a run: it holds what every one holds, fits time 1, its queues are
/// empty and its clock is off.
#[tactic(auto, using(crate::proofs::Routers::router_begins, crate::proofs::Endpoints::endpoint_begins))]
pub fn new_elements_can_begin()
    ensures routers { RoutersBegin }
    ensures endpoints { EndpointsBegin }
{}

/// Each port has the channels that the network gives it, the credits that the queue at the other end of its line holds, and an empty
/// queue.
#[tactic(auto, using(crate::proofs::Routers::router_read, crate::proofs::Endpoints::endpoint_read))]
pub fn new_elements_have_their_credits()
    ensures routers { RoutersAreRead }
    ensures endpoints { EndpointsAreRead }
{}

/// What may go out at one end of a line may come in at the other.
#[tactic(auto, using(crate::proofs::Speaking::lines_agree))]
pub fn lines_agree()
    ensures { LinesAgree }
{}

/// A router or an endpoint sends no more than may go over its lines, takes what may come over them, and names no port but one with a
/// line.
#[tactic(auto, using(crate::proofs::Speaking::router_speaks, crate::proofs::Speaking::endpoint_speaks))]
pub fn elements_speak_as_members()
    ensures routers { RoutersSpeak }
    ensures endpoints { EndpointsSpeak }
{}
