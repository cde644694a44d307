//! Laws of the callers of a run.

ghost use Rattle.mr_callers.specs.Joining.{PhasesJoin, DrivesJoin};

/// Where a history has what the first phases of a scenario ask, and behind it each caller has put
/// its share of the next phase, in any order of callers, the history with these entries and the end
/// of the phase has what the phases with the next one ask. And where a daemon's own entries are
/// what its routing machine makes of its lines, the daemon drives it in the phase.
pub fn phases_join()
    ensures made { PhasesJoin }
    ensures drives { DrivesJoin }
{}
