//! Checkpoints from pieces: the pieces that the parts of a simulation hand over at one time are put together into the one
//! spelling of its state, in which nothing of the parts is left.
#![tactic(auto)]

mod composing;
mod holders;
mod merging;
#[cfg(test)]
mod tests;

pub use composing::{compose, length};
