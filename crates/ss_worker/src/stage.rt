//! What a worker can do next.

/// A window of a run: its number, from 0, the least time of an event that is to come in any part when it begins, and
/// where it ends, both in picoseconds.
#[derive(Clone, Copy, Debug, PartialEq, Eq)]
pub struct Window {
    pub number: u64,
    pub least: u64,
    pub upto: u64,
}

/// What a worker can do next.
#[derive(Clone, Copy, Debug, PartialEq, Eq)]
pub enum Stage {
    /// It can run this window.
    Ready(Window),
    /// A batch of its last window wasn't handed out, or wasn't taken in.
    Waiting,
    /// Nothing is missing, and no part has an event that is to come before the run's bound.
    Over,
}
