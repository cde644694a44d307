//! Why a command gave no requests.

ghost use Rattle.std.specs.Prelude.{◌≡◌};
ghost use Rattle.smc_core.specs.declared.stop.Stop.TheVariants as stop;

use crate::mistake::Mistake;
use std::alloc::{AllocError, AllocFailed};

/// Why a command was not done.
#[derive(Clone, Copy, Debug)]
pub(crate) enum Stop {
    Memory,
    Bad(Mistake),
}

impl From<AllocError> for Stop {
    ghost from_gives = { λ _ e. e ≡ stop.Memory };

    fn from(_e: AllocError) -> Stop {
        Stop::Memory
    }
}

impl<T: Drop> From<AllocFailed<T>> for Stop {
    ghost from_gives = { λ _ e. e ≡ stop.Memory };

    fn from(_e: AllocFailed<T>) -> Stop {
        Stop::Memory
    }
}

impl From<Mistake> for Stop {
    ghost from_gives = { λ m e. e ≡ stop.Bad m };

    fn from(mistake: Mistake) -> Stop {
        Stop::Bad(mistake)
    }
}
