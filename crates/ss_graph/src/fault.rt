//! Why a text is no graph.

ghost use Rattle.std.specs.Prelude.{◌≡◌};
ghost use Rattle.ss_graph.specs.declared.fault.GraphFault.TheVariants.{NoMemory};

use ss_units::Text;
use std::alloc::{AllocError, AllocFailed};

/// A counted quantity that has a limit.
#[derive(Clone, Copy, Debug, PartialEq, Eq)]
pub enum LimitKind {
    GraphBytes,
    CheckpointBytes,
    Components,
    Links,
    Ports,
    NameBytes,
    Parts,
    Threads,
    Checkpoints,
}

/// The first check of a graph's text that fails. A text in it is the place, as `links[2].left.port`.
/// The checks and their order are this project's own.
#[derive(Drop)]
pub enum GraphFault {
    /// The bytes are no JSON text of depth 127 at most.
    Text,
    /// The value has another form than is asked here.
    Form(Text),
    /// There are shared parameters.
    SharedParams,
    /// A member that must be there is missing.
    Member(Text),
    /// The text is no time, or it is out of its range.
    Unit(Text),
    /// An earlier item of the list has this name.
    DuplicateName(Text),
    /// No component has this name.
    UnknownComponent(Text),
    /// An earlier end has this component and port.
    PortTaken(Text),
    /// The latency of the line from this side is out of its range.
    Latency(Text),
    /// This quantity passes its limit. The number is the one that passed.
    Limit(LimitKind, u64),
    /// There was no memory.
    NoMemory,
}

impl From<AllocError> for GraphFault {
    ghost from_gives = { λ _ e. e ≡ NoMemory };

    fn from(_e: AllocError) -> GraphFault {
        GraphFault::NoMemory
    }
}

impl<T: Drop> From<AllocFailed<T>> for GraphFault {
    ghost from_gives = { λ _ e. e ≡ NoMemory };

    fn from(_e: AllocFailed<T>) -> GraphFault {
        GraphFault::NoMemory
    }
}
