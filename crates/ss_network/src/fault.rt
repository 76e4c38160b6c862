//! Why a graph can't be made.

ghost use Rattle.std.specs.Prelude.{◌≡◌};
ghost use Rattle.ss_network.specs.declared.fault.MakeFault.TheVariants.{NoMemory};

use ss_graph::LimitKind;
use ss_units::Text;
use std::alloc::{AllocError, AllocFailed};

/// The first check of making that fails. A text in it is the place, as `components[2].params.count`. The
/// checks and their order are this project's own.
#[derive(Drop)]
pub enum MakeFault {
    /// No kind has this name.
    UnknownType(Text),
    /// The component's kind has no port of this name.
    UnknownPort(Text),
    /// The parameter isn't of its form, or it is out of its range.
    Param(Text),
    /// One end of the link is of a network, and the other isn't.
    Protocol(Text),
    /// No link has this port, which must have one. The place ends in the port's name.
    PortUnlinked(Text),
    /// The port is linked to another than its peer. The place ends in the port's name.
    Miswired(Text),
    /// More than there may be of these.
    Limit(LimitKind, u64),
    /// There was no memory.
    NoMemory,
}

impl From<AllocError> for MakeFault {
    ghost from_gives = { λ _ e. e ≡ NoMemory };

    fn from(_e: AllocError) -> MakeFault {
        MakeFault::NoMemory
    }
}

impl<T: Drop> From<AllocFailed<T>> for MakeFault {
    ghost from_gives = { λ _ e. e ≡ NoMemory };

    fn from(_e: AllocFailed<T>) -> MakeFault {
        MakeFault::NoMemory
    }
}
