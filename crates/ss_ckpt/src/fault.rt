//! What is wrong with the bytes of a checkpoint.

ghost use Rattle.std.specs.Prelude.{◌≡◌};
ghost use Rattle.ss_ckpt.specs.declared.fault.CkptFault.TheVariants as fault;
ghost use Rattle.ss_ckpt.specs.Faults.{fault_of};

use ss_element::RestoreFault;
use ss_wire::Short;
use std::alloc::{AllocError, AllocFailed};

/// The first fault of a checkpoint's bytes, from left to right. Places are in bytes from the start.
#[derive(Clone, Copy, Debug, PartialEq, Eq, Drop)]
pub enum CkptFault {
    /// The bytes don't begin as those of a checkpoint do.
    Magic,
    /// The bytes are of another form.
    Form,
    /// The bytes end within the field that begins at `at`.
    Short { at: u64 },
    /// The field that begins at `at` has a value that it can't have.
    Value { at: u64 },
    /// The event that begins at `at` comes before the one in front of it.
    Order { at: u64 },
    /// Bytes follow the last event, from `at` on.
    Trailing { at: u64 },
    /// No memory is left.
    NoMemory,
}

impl From<Short> for CkptFault {
    ghost from_gives = { λ s e. e ≡ fault.Short s.at };

    fn from(short: Short) -> CkptFault {
        CkptFault::Short { at: short.at }
    }
}

impl From<RestoreFault> for CkptFault {
    ghost from_gives = { λ s e. e ≡ fault_of s };

    fn from(fault: RestoreFault) -> CkptFault {
        match fault {
            RestoreFault::Short { at } => CkptFault::Short { at },
            RestoreFault::Value { at } => CkptFault::Value { at },
            RestoreFault::NoMemory => CkptFault::NoMemory,
        }
    }
}

impl From<AllocError> for CkptFault {
    ghost from_gives = { λ _ e. e ≡ fault.NoMemory };

    fn from(_error: AllocError) -> CkptFault {
        CkptFault::NoMemory
    }
}

impl<T: Drop> From<AllocFailed<T>> for CkptFault {
    ghost from_gives = { λ _ e. e ≡ fault.NoMemory };

    fn from(_error: AllocFailed<T>) -> CkptFault {
        CkptFault::NoMemory
    }
}
