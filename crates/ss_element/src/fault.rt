//! What is wrong with the bytes of a saved element.

ghost use Rattle.std.specs.Prelude.{◌≡◌};
ghost use Rattle.ss_element.specs.declared.fault.RestoreFault.TheVariants as fault;

use ss_wire::Short;
use std::alloc::AllocError;

/// The first fault of the bytes of a state or a load, from left to right.
#[derive(Clone, Copy, Debug, PartialEq, Eq, Drop)]
pub enum RestoreFault {
    /// The bytes end within the field that begins at `at`.
    Short { at: u64 },
    /// The field that begins at `at` has a value that it can't have.
    Value { at: u64 },
    /// No memory is left.
    NoMemory,
}

impl From<Short> for RestoreFault {
    ghost from_gives = { λ s e. e ≡ fault.Short s.at };

    fn from(short: Short) -> RestoreFault {
        RestoreFault::Short { at: short.at }
    }
}

impl From<AllocError> for RestoreFault {
    ghost from_gives = { λ _ e. e ≡ fault.NoMemory };

    fn from(_error: AllocError) -> RestoreFault {
        RestoreFault::NoMemory
    }
}
