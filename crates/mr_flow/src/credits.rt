//! Credits: the flits that a sender may still send, per channel.

ghost use Rattle.std.specs.Prelude.{◌≡◌, ◌<◌, ◌+◌, ◌-◌, ◌^◌, length, replicate, slice_index, slice_set, nat_le, if◌then◌else◌, IfOk};

use std::alloc::{AllocError, Global};
use std::marker::Model;

/// Per channel the flits that the receiver has room for. Contracts see it as the list of these numbers.
#[derive(Drop)]
pub struct Credits {
    flits: Vec<u32>,
}

impl Model for Credits {
    ghost use Rattle.std.specs.Prelude.{ℕ, List};

    ghost Value = { List ℕ };

    ghost view = { λ c. c.flits.items };
}

impl Credits {
    /// So many flits for each of so many channels. It fails only where no memory is left.
    pub fn new(alloc: Global, channels: u16, flits: u32) -> Result<Credits, AllocError>
        ensures { IfOk result (λ c. c ≡ replicate channels flits) }
    {
        let flits = Vec::from_elem(alloc, flits, usize::from(channels))?;
        Ok(Credits { flits })
    }

    /// How many channels there are.
    pub fn channels(&self) -> usize
        ensures { result ≡ length self.now }
    {
        self.flits.len()
    }

    /// The flits of a channel.
    pub fn left(&self, channel: u8) -> u32
        requires { channel < length self.now }
        ensures { result ≡ slice_index self.now channel }
    {
        self.flits[usize::from(channel)]
    }

    /// Takes flits from a channel. It answers `false` exactly where the channel has fewer, and then changes nothing.
    /// It takes no memory.
    pub fn take(&mut self, channel: u8, flits: u32) -> bool
        requires { channel < length self.old }
        ensures answer { result ≡ nat_le flits (slice_index self.old channel) }
        ensures after { self.new ≡ (if result then slice_set self.old channel (slice_index self.old channel - flits) else self.old) }
    {
        let left = self.left(channel);
        if left < flits {
            return false;
        }
        self.flits[usize::from(channel)] = left - flits;
        true
    }

    /// Gives flits back to a channel. It takes no memory.
    pub fn give(&mut self, channel: u8, flits: u32)
        requires here { channel < length self.old }
        requires fits { slice_index self.old channel + flits < 2 ^ 32 }
        ensures { self.new ≡ slice_set self.old channel (slice_index self.old channel + flits) }
    {
        self.flits[usize::from(channel)] += flits;
    }

    /// Sets the flits of a channel, as they were saved.
    pub fn set(&mut self, channel: u8, flits: u32)
        requires { channel < length self.old }
        ensures { self.new ≡ slice_set self.old channel flits }
    {
        self.flits[usize::from(channel)] = flits;
    }
}
