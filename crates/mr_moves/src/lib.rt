//! Packets that go along the paths of their flows, from place to place: what is once and in order stays so. It knows nothing of
//! components, lines and topologies, and has no code: its definitions stand in `specs/`, and each theorem is the contract of a
//! function that does nothing.
#![tactic(auto)]

ghost use Rattle.mr_moves.specs.Laws.{ChainsAreOnce, MovesKeep, PartsKeep, NumbersPlace};

/// A path whose places each lead to the next, and of which the last leads nowhere, has no place twice.
#[tactic(auto, using(crate::proofs::Proving::chains_are_once))]
pub fn a_path_has_no_place_twice<A>()
    ensures { ChainsAreOnce A }
{}

/// A packet that is injected at the back of the first place of its path, that goes from the front of a place to the back of the next,
/// or that is taken from the front of the last, leaves all packets once and in order: of each flow what was delivered and then what
/// stands along its path, from the end, is what was injected.
#[tactic(auto, using(crate::proofs::Proving::moves_keep_order))]
pub fn moves_keep_packets_in_order<A, F, P>()
    ensures { MovesKeep A F P }
{}

/// So do moves within one part of a network, which knows of its own places alone.
#[tactic(auto, using(crate::proofs::Proving::parts_keep_order))]
pub fn moves_of_a_part_keep_packets_in_order<A, B, F, P>()
    ensures { PartsKeep A B F P }
{}

/// Where packets are in order, and the injected ones of each flow are numbered from 0, each is in one place of its path or was
/// delivered, once, no other packet is anywhere, and the delivered ones of each flow are numbered from 0.
pub fn numbered_packets_are_in_one_place<A, F, P>()
    ensures { NumbersPlace A F P }
{}
