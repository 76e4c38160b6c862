//! Why no run goes on from bytes.

ghost use Rattle.std.specs.Prelude.{◌≡◌};
ghost use Rattle.ss_recall.specs.Faults.{of_form, of_state};

use ss_ckpt::CkptFault;
use ss_restart::RestartFault;
use thiserror::Error;

/// Why no run goes on from bytes: their own first fault, or the first one of the state that they spell.
#[derive(Clone, Copy, Debug, PartialEq, Eq, Drop, Error)]
pub enum RecallFault {
    /// The bytes aren't those of a checkpoint over an accepted graph.
    #[error("the bytes aren't those of a checkpoint")]
    Form(CkptFault),
    /// The state that the bytes spell isn't sound.
    #[error("the saved state isn't sound")]
    State(RestartFault),
    /// No memory is left.
    #[error("no memory")]
    NoMemory,
}

impl From<CkptFault> for RecallFault {
    ghost from_gives = { λ f e. e ≡ of_form f };

    fn from(fault: CkptFault) -> RecallFault {
        match fault {
            CkptFault::NoMemory => RecallFault::NoMemory,
            _ => RecallFault::Form(fault),
        }
    }
}

impl From<RestartFault> for RecallFault {
    ghost from_gives = { λ f e. e ≡ of_state f };

    fn from(fault: RestartFault) -> RecallFault {
        match fault {
            RestartFault::NoMemory => RecallFault::NoMemory,
            _ => RecallFault::State(fault),
        }
    }
}
