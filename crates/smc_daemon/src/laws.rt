//! Laws of how many control entries a daemon with a routing machine makes.

ghost use Rattle.smc_daemon.specs.Laws.{LeastOfCourses, MostOfCourses, PolledInCourses};
ghost use Rattle.smc_daemon.specs.Laws.{LeastOfDaemons, MostOfDaemons, BroughtByPackets};
ghost use Rattle.smc_daemon.specs.Laws.{MostOfBegun, DrivesOn, DrivesAll};
ghost use Rattle.smc_daemon.specs.RunLaws.{RoomOfLegal, PacketsOfLegal, LeastOfRuns};
ghost use Rattle.smc_daemon.specs.RunLaws.{MostOfRuns, MostWithoutMachines};

/// A machine makes as much at least as where no receive gives a report, and at most as much more as
/// its reports bring: three for each receive that its polls ask for.
pub fn courses_bound()
    ensures least { LeastOfCourses }
    ensures most { MostOfCourses }
    ensures polled { PolledInCourses }
{}

/// So does a daemon over all phases of its scenario.
pub fn daemons_bound()
    ensures least { LeastOfDaemons }
    ensures most { MostOfDaemons }
{}

/// And so does a daemon that is within a phase, with what it would still make there.
pub fn begun_bound()
    ensures { MostOfBegun }
{}

/// Phases are driven one after another.
pub fn phases_driven()
    ensures on { DrivesOn }
    ensures all { DrivesAll }
{}

/// What the kernel's reports bring to all daemons of a legal history is bounded by its packets.
pub fn packets_bring()
    ensures { BroughtByPackets }
{}

/// All daemons of a scenario together: those that were through made `least` at least. What was made
/// and what any one of them lacks is not more than `most`, and where none has a machine not more
/// than `least`. A legal history has room for what was made, and for its packets.
pub fn runs_bound()
    ensures room { RoomOfLegal }
    ensures packets { PacketsOfLegal }
    ensures least { LeastOfRuns }
    ensures most { MostOfRuns }
    ensures plain { MostWithoutMachines }
{}
