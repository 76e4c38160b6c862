//! What goes over a network's lines, after Merlin: packets of flits, and the credits that come back for them.
#![tactic(auto)]

ghost use Rattle.std.specs.Prelude.{◌≡◌};
ghost use Rattle.mr_flow.specs.declared.ShapeFault.TheVariants.{NoMemory};

mod credits;
mod laws;
mod line_end;
mod payload;
mod queue;
mod queues;

pub use credits::Credits;
pub use laws::{
    a_fresh_side_is_empty, a_side_stays_sound, a_side_stays_whole, arrivals_are_counted,
    capacities_stay, credits_pay_for_what_is_sent, packets_move_from_front_to_back,
    sent_packets_depart, sent_packets_take_their_time, taken_packets_are_counted,
    what_was_saved_is_read,
};
pub use line_end::LineEnd;
pub use payload::{read_core_load, read_net_load};
pub use queue::Queue;
use std::alloc::{AllocError, AllocFailed};
use thiserror::Error;

/// A packet on its way from one endpoint to another.
#[derive(Clone, Copy, Debug, PartialEq, Eq)]
pub struct Packet {
    /// The endpoint that made it.
    pub src: u32,
    /// The endpoint that it goes to.
    pub dst: u32,
    /// Its virtual network.
    pub vn: u8,
    /// Its size in flits.
    pub flits: u32,
    /// Its number among the packets of its source, destination and virtual network.
    pub seq: u64,
    /// When it was made, in picoseconds.
    pub born: u64,
    /// What its maker wrote on it.
    pub tag: u64,
}

/// What goes over a line of a network.
#[derive(Clone, Copy, Debug, PartialEq, Eq)]
pub enum NetLoad {
    /// A packet, in a channel of the line.
    Packet { channel: u8, packet: Packet },
    /// Flits of a channel that are free again at the receiver of the way back.
    Credit { channel: u8, flits: u32 },
}

/// What an event carries.
#[derive(Clone, Copy, Debug, PartialEq, Eq)]
pub enum Load {
    /// A number, between core kinds.
    Core { n: u32 },
    /// What goes over a line of a network.
    Net(NetLoad),
}

/// What packets a network has.
#[derive(Clone, Copy, Debug, PartialEq, Eq)]
pub struct Bounds {
    /// How many endpoints there are.
    pub endpoints: u32,
    /// How many virtual networks there are.
    pub vns: u8,
    /// The most flits of a packet: the least capacity of a queue.
    pub least: u32,
}

/// Where a port of a router leads.
#[derive(Clone, Copy, Debug, PartialEq, Eq)]
pub enum Peer {
    /// To a port of a router.
    Router { id: u32, port: u16 },
    /// To an endpoint.
    Host { id: u32 },
}

/// Why a text is no shape of a topology.
#[derive(Clone, Copy, Debug, PartialEq, Eq, Drop, Error)]
pub enum ShapeFault {
    #[error("the text isn't a shape, or gives too many routers or endpoints")]
    Form,
    #[error("no memory")]
    NoMemory,
}

impl From<AllocError> for ShapeFault {
    ghost from_gives = { λ _ e. e ≡ NoMemory };

    fn from(_e: AllocError) -> ShapeFault {
        ShapeFault::NoMemory
    }
}

impl<T: Drop> From<AllocFailed<T>> for ShapeFault {
    ghost from_gives = { λ _ e. e ≡ NoMemory };

    fn from(_e: AllocFailed<T>) -> ShapeFault {
        ShapeFault::NoMemory
    }
}

#[cfg(test)]
mod tests;
