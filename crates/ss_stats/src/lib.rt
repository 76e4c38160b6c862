//! Statistics that components keep, and their CSV text. Both are this project's own, after the accumulators and
//! histograms of SST.
#![tactic(auto)]

mod accumulator;
mod histogram;
mod set;
mod text;

pub use accumulator::Accumulator;
pub use histogram::Histogram;
pub use set::{Stat, StatSet};
pub use text::{csv_head, csv_rows};

#[cfg(test)]
mod tests;
