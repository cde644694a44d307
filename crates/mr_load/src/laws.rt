//! Laws of what is loaded.

ghost use Rattle.mr_load.specs.Laws.{EveryItem, SentInPhase, OfPhase, OfLaterPhases, PacketCount};
ghost use Rattle.mr_load.specs.RunLimits.{LimitsWithin, LimitsAreOf};

/// Every item of a lane is a packet or a skip.
pub fn every_item()
    ensures { EveryItem }
{}

/// A lane's packets by their phases: they are those that the lane is to send in each.
pub fn lanes_by_phases()
    ensures sent { SentInPhase }
    ensures phase { OfPhase }
    ensures later { OfLaterPhases }
    ensures count { PacketCount }
{}

/// The limits of a run are within those that every scenario has, and those of its scenario.
pub fn limits_within()
    ensures within { LimitsWithin }
    ensures scenario { LimitsAreOf }
{}
