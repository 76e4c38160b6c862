//! An endpoint's end of a line, after Merlin's link control: one channel per virtual network.
#![tactic(auto)]

mod link_control;

pub use link_control::LinkControl;
use mr_flow::Packet;
use ss_units::Text;

/// A packet that wasn't sent.
#[derive(Clone, Copy, Debug, PartialEq, Eq)]
pub enum SendBack {
    /// The output queue of its virtual network has too little room for it.
    Busy(Packet),
    /// No memory was left.
    NoMemory(Packet),
}

/// What an endpoint is made from. Sizes are in flits, the time of a flit in picoseconds.
#[derive(Drop)]
pub struct NicSettings {
    pub name: Text,
    /// Its number among the endpoints.
    pub id: u32,
    /// How many endpoints there are.
    pub peers: u32,
    /// How many virtual networks there are.
    pub vns: u8,
    pub flit_time: u64,
    /// The capacity of an input queue.
    pub input_flits: u32,
    /// The capacity of an output queue.
    pub output_flits: u32,
    /// The capacity of the router's input queues on its line.
    pub credits: u32,
    /// The least capacity of the network.
    pub least: u32,
}

#[cfg(test)]
mod tests;
