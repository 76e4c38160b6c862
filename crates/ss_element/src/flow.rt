//! What a network reads off an element.

/// What stands at a channel of a port, in flits.
#[derive(Clone, Copy, Debug, PartialEq, Eq)]
pub struct Flow {
    /// How many the element may still send on the channel.
    pub credits: u32,
    /// How many are in the channel's input queue.
    pub queued: u32,
    /// How many that queue can hold.
    pub capacity: u32,
}
