//! Fat trees after Merlin's. Routes and peers are computed from numbers, without tables.
#![tactic(auto)]

mod levels;
mod shape;
mod tree;

pub use tree::FatTree;

/// The ports of the routers of a level.
#[derive(Clone, Copy, Debug, PartialEq, Eq)]
pub struct Level {
    /// How many lead down.
    pub down: u8,
    /// How many lead up, none at the last level.
    pub up: u8,
}

/// Where a router stands.
#[derive(Clone, Copy, Debug, PartialEq, Eq)]
pub struct Place {
    /// Its level, from 0 at the endpoints.
    pub level: usize,
    /// Its group in the level: the routers of one group have the same endpoints below them.
    pub group: u64,
    /// Its number in the group.
    pub member: u64,
}

#[cfg(test)]
mod tests;
#[cfg(test)]
mod walks;
