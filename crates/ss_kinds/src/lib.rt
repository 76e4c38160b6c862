//! The core kinds: a pinger, an echo and a ticker, which send each other numbers; and what elements of several kinds keep together.
#![tactic(auto)]

mod echo;
mod names;
mod number;
mod pinger;
#[cfg(test)]
mod tests;
mod ticker;

pub use echo::Echo;
pub use names::{PortName, StatName, place_in, port_name, stat_name};
pub use pinger::Pinger;
pub use ticker::{TICKER_OUT, Ticker};
