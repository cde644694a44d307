//! The names of a run and of a daemon's turn in it, by which contracts know the limits of a machine
//! behind a lock, and which daemon it was that a routing program was given.
use std::marker::Brand;

/// Which run it is. A program picks it once, where it makes the machine, by passing `Brand` to a
/// function that is generic in the name.
pub trait RunName {
    ghost use Rattle.mr_model.specs.declared.limits.Limits.{Limits};

    // The limits of the run.
    ghost limits: { Limits };
}

impl RunName for Brand {
    ghost use Rattle.mr_router.specs.Limiting.{no_limits};

    ghost limits = { no_limits };
}

/// Whose turn it is, and what it had seen when the turn began. A program picks it for each turn, as
/// the name of the run.
pub trait TurnName {
    ghost use Rattle.mr_router.specs.Callers.{DaemonValue};

    // The daemon as the turn began.
    ghost start: { DaemonValue };
}

impl TurnName for Brand {
    ghost use Rattle.mr_router.specs.Callers.{new_daemon};

    ghost start = { new_daemon 0 };
}
