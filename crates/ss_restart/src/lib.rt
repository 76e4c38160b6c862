//! Saved states, judged: whether a run can go on from the state that a checkpoint's bytes spell; and the workers of a run
//! that does.
#![tactic(auto)]

mod fault;
mod flows;
mod judging;
mod resuming;
#[cfg(test)]
mod tests;
mod ticks;

pub use fault::RestartFault;
pub use judging::sound;
pub use resuming::resume;
