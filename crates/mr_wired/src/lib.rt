//! A network that passes its checks is wired as its topology says, and in a run of it each packet is once and in order. It has no
//! code: its definitions stand in `specs/`.
#![tactic(auto)]

ghost use Rattle.mr_wired.specs.Expecting.{NetworksExpectWhatComes};
ghost use Rattle.mr_wired.specs.Pairs.{PairsLeadBack};
ghost use Rattle.mr_wired.specs.Running.{NetworksRunInOrder};
ghost use Rattle.mr_wired.specs.Stored.{StatisticsAreStored};
ghost use Rattle.mr_wired.specs.Wired.{NetworksAreWired};

use ss_safe::Local;

/// Where the members of a graph pass the checks of a network, components that are what their members say have each router's port
/// lead to its peer in the topology, and each endpoint at a router.
pub fn networks_are_wired<S, L, P>()
    ensures { NetworksAreWired S L P }
{}

/// In each state of a run from a start, over members that pass the checks of a network, wires whose lines lead back, and components
/// that are made of the members and hold no packets yet: each injected packet is in one place of its path or was delivered, once; no
/// other packet is anywhere; of each flow, what was delivered and then what stands along its path, from the end, is what was injected;
/// and its packets are numbered from 0 in the order in which they were injected, and so in the order in which they are delivered.
pub fn networks_run_in_order<E: Local, P>()
    ensures { NetworksRunInOrder P E.kind E.allowed }
{}

/// In each state of such a run, over elements that were delivered nothing at first: an endpoint expects of each flow to it the number of
/// its packets that were delivered. The statistics in which it tells of them are those with which it began, with a 0 for each packet,
/// of those out of order, and with the flits of each, of those received.
pub fn networks_expect_what_comes<E: Local, P>()
    ensures { NetworksExpectWhatComes P E.kind E.allowed }
{}

/// So where these statistics are accumulators that began with no values: of packets out of order the sum and the greatest value are 0;
/// the packets received are counted, those that the endpoint delivered, and their flits summed up, as far as the fields go.
pub fn statistics_are_stored<E: Local, P, F>()
    ensures { StatisticsAreStored P F E.kind }
{}

/// Where lines come in pairs, one each way, and no two leave one port, each line leads back.
#[tactic(auto, using(crate::proofs::Pairing::pairs_lead_back))]
pub fn lines_in_pairs_lead_back()
    ensures { PairsLeadBack }
{}
