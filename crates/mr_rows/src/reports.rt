//! Reports to the owner.

ghost use Rattle.std.specs.Prelude.{◌≡◌, ◌++◌, Bool, true, false, Some, None, [], ◌∷◌};
ghost use Rattle.mr_model.specs.Attempt.{attempt};
ghost use Rattle.mr_model.specs.Ending.{ending};
ghost use Rattle.mr_model.specs.Legal.{IsLegal};
ghost use Rattle.mr_model.specs.Lively.{IsLively};
ghost use Rattle.mr_model.specs.Now.{now};
ghost use Rattle.mr_model.specs.Switches.{asserts};
ghost use Rattle.mr_model.specs.Unread.{accepts, unread};
ghost use Rattle.mr_rows.specs.NobodyIsTold as untold;
ghost use Rattle.mr_rows.specs.PimReports as by_pim;
ghost use Rattle.mr_rows.specs.RegisterCopiesLost as lost;
ghost use Rattle.mr_rows.specs.RegisterReport as copied;
ghost use Rattle.mr_rows.specs.ReleasedReports as releases;
ghost use Rattle.mr_rows.specs.WrongInterface as wrong;

/// A packet on a wrong interface is reported again only where more than three seconds have passed
/// since the last report of its entry. Each of them counts for the entry and as wrong, and on no
/// vif.
pub fn wrong_interface()
    ensures legal { IsLegal wrong.limits wrong.history }
    ensures ending { ending wrong.limits wrong.history ≡ wrong.tail }
    ensures lively { IsLively wrong.limits wrong.history }
    ensures asserts { asserts wrong.history ≡ true }
    ensures now { now wrong.history ≡ 3001 }
    ensures first_attempt { attempt wrong.three_seconds_later 5 ≡ Some 0 }
    ensures last_attempt { attempt wrong.history 5 ≡ Some 3001 }
    ensures other_entry { attempt wrong.history 4 ≡ None }
{}

/// A copy on the register vif counts there, and is told to the owner as the whole packet.
pub fn register_report()
    ensures legal { IsLegal copied.limits copied.history }
    ensures ending { ending copied.limits copied.history ≡ copied.tail }
    ensures lively { IsLively copied.limits copied.history }
{}

/// With 64 unread reports a further copy is lost, though it counts, and a packet that misses is
/// dropped.
pub fn register_copies_lost()
    ensures legal { IsLegal lost.limits lost.history }
    ensures ending { ending lost.limits lost.history ≡ lost.tail }
    ensures lively { IsLively lost.limits lost.history }
    ensures accepts { accepts lost.limits lost.start ≡ true }
    ensures accepts_none { accepts lost.limits lost.history ≡ false }
{}

/// With pim on a wrong interface is reported for an entry that does not reach it; with pim off and
/// assert on it is not.
pub fn pim_reports()
    ensures legal { IsLegal by_pim.limits by_pim.history }
    ensures lively { IsLively by_pim.limits by_pim.history }
    ensures ending { ending by_pim.limits by_pim.history ≡ by_pim.tail }
    ensures attempt { attempt by_pim.history 5 ≡ Some 0 }
{}

/// Without an owner reports are lost, the attempts stand, and entries and vifs count as ever.
pub fn nobody_is_told()
    ensures legal { IsLegal untold.limits untold.history }
    ensures lively { IsLively untold.limits untold.history }
    ensures ending { ending untold.limits untold.history ≡ untold.tail }
    ensures attempt { attempt untold.history 5 ≡ Some 0 }
    ensures unread { unread untold.limits untold.history ≡ [] }
{}

/// A new entry judges the packets that it releases one after another, and what the earlier ones
/// told and attempted stands before the later ones.
pub fn released_reports()
    ensures legal { IsLegal releases.limits releases.history }
    ensures lively { IsLively releases.limits releases.history }
    ensures ending { ending releases.limits releases.history ≡ releases.tail }
    ensures unread { unread releases.limits (releases.before_entry ++ releases.entry_made ∷ [])
        ≡ releases.reports }
    ensures attempt { attempt releases.history 12 ≡ Some 0 }
{}
