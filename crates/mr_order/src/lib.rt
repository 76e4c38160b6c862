//! Packets once and in order: whatever elements a network is made of, where each call of them is a list of moves of packets along
//! the packets' paths, every state of a run from a start has each packet once and in the order in which it was injected. It has no
//! code: its definitions stand in `specs/`.
#![tactic(auto)]

ghost use Rattle.mr_order.specs.Expected.{RunsExpected};
ghost use Rattle.mr_order.specs.Numbers.{RunsNumbered};
ghost use Rattle.mr_order.specs.Runs.{RunsInOrder};

use ss_safe::Local;

/// In each state of a run from a start, over any wires whose lines lead back, any elements that keep a network's order, and any
/// routes that depend on the element and on the packet's flow alone and that end: of each flow, what was delivered and then what
/// stands along its path, from the end, is what was injected, in order, and each packet stands in a place of its path.
pub fn packets_stay_in_order<E: Local, P, F>()
    ensures { RunsInOrder P F E.kind E.allowed }
{}

/// Where each element numbers the packets of its flows one after another, and none has injected any yet: in each state of a run each
/// injected packet is in one place of its path or was delivered, once, no other packet is anywhere, and of each flow what was injected
/// is numbered from 0, and so is what was delivered.
pub fn packets_are_in_one_place<E: Local, P, F>()
    ensures { RunsNumbered P F E.kind E.allowed }
{}

/// Where each flow ends at the component at which its path does, and no element was delivered any packet yet: in each state of a run an
/// element expects of each flow that ends there the number of its packets that were delivered; it delivered these itself, and told its
/// statistics 0 for each, of packets out of order, and the flits of each, of packets received.
pub fn packets_come_as_expected<E: Local, P, F>()
    ensures { RunsExpected P F E.kind E.allowed }
{}
