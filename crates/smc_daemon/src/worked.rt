ghost use Rattle.std.specs.Prelude.{◌≡◌, [], ◌∷◌, ◌++◌};
ghost use Rattle.smc_daemon.specs.Courses.{Drives, DrivesFrom};
ghost use Rattle.smc_daemon.specs.Reaching.{IsReach, Lacks, Ran};
ghost use Rattle.smc_daemon.specs.Reporting.{brought_to_all};
ghost use Rattle.smc_daemon.specs.Room.{least, most};
ghost use Rattle.mr_scenario.specs.declared.scenario.DaemonKind.TheVariants.{Admin, Smc};
ghost use Rattle.smc_daemon.specs.Worked.{files, scenario, machine, running, history};
ghost use Rattle.smc_daemon.specs.Worked.{conf_name, reach};
ghost use Rattle.smc_daemon.specs.Worked.{before, before_other};
ghost use Rattle.smc_daemon.specs.Worked.{started_without_vif, polled, heard, heard_none};
ghost use Rattle.smc_daemon.specs.Worked.{first_phase, third_phase};

/// An office: its daemon starts beside another one, a packet misses, and the daemon polls and
/// learns its route. Near misses: a vif is left out; the poll goes on behind the first receive that
/// gives none; what was reported isn't learned; a route for another source than that of the packet;
/// a poll without a receive. Behind the poll's first receive its daemon lacks two entries, and the
/// other one none. It does nothing.
pub fn worked_office()
    ensures drives { DrivesFrom 1 machine [] scenario.phases history }
    ensures vif_left_out { Drives 1 machine first_phase [] started_without_vif → ⊥ }
    ensures goes_on { Drives 1 running third_phase before (polled ++ heard_none ∷ []) → ⊥ }
    ensures not_learned { Drives 1 running third_phase before (heard ∷ heard_none ∷ []) → ⊥ }
    ensures other_source { Drives 1 running third_phase before_other polled → ⊥ }
    ensures no_receive { Drives 1 running third_phase before [] → ⊥ }
    ensures least { least files scenario ≡ 7 }
    ensures most { most files scenario 2 ≡ 17 }
    ensures most_of_one { most files scenario 1 ≡ 12 }
    ensures brought { brought_to_all history ≡ 3 }
    ensures reach { IsReach scenario reach }
    ensures lacks { Lacks files scenario reach 1 (Smc (conf_name ∷ [])) 2 }
    ensures admin_ran { Ran files scenario history 2 Admin }
    ensures admin_lacks { Lacks files scenario reach 2 Admin 1 → ⊥ }
{}
