//! Laws of endpoints, each the contract of a function that does nothing.

ghost use Rattle.mr_nic.specs.Kind.{TestsBegin, TrafficBegins};

/// What is made of settings that fit can begin a run: it holds what every endpoint holds, fits time 1, and its queues are empty.
pub fn new_endpoints_can_begin()
    ensures tests { TestsBegin }
    ensures traffic { TrafficBegins }
{}
