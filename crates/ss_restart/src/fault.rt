//! What is wrong with a saved state.

ghost use Rattle.std.specs.Prelude.{◌≡◌};
ghost use Rattle.ss_restart.specs.declared.fault.RestartFault.TheVariants as fault;

use std::alloc::AllocError;

/// The first fault of a saved state, in the order in which it is judged: elements, what events bring, times of events,
/// ticks of clocks, and the balance of networks' lines. The order is this project's own.
#[derive(Clone, Copy, Debug, PartialEq, Eq, Drop)]
pub enum RestartFault {
    /// No run leaves the component with this number so.
    Element { component: u32 },
    /// What the event at this place brings, counted from 0, can't come to its component.
    Payload { event: u64 },
    /// The event at this place, counted from 0, can't be pending at its time.
    Time { event: u64 },
    /// The clock with this number is on and has no tick.
    Tick { clock: u32 },
    /// On a channel of a line flits are missing, or there are too many.
    Unbalanced { line: u32, channel: u8 },
    /// No memory is left.
    NoMemory,
}

impl From<AllocError> for RestartFault {
    ghost from_gives = { λ _ e. e ≡ fault.NoMemory };

    fn from(_error: AllocError) -> RestartFault {
        RestartFault::NoMemory
    }
}
