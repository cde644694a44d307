//! Control calls.

ghost use Rattle.std.specs.Prelude.{◌≡◌, Bool, true, false, Some, None, [], ◌∷◌};
ghost use Rattle.mr_model.specs.Changes.{changes};
ghost use Rattle.mr_model.specs.Counts.{route_counts};
ghost use Rattle.mr_model.specs.Ending.{ending};
ghost use Rattle.mr_model.specs.Legal.{IsLegal};
ghost use Rattle.mr_model.specs.Lively.{IsLively};
ghost use Rattle.mr_model.specs.Owner.{owner};
ghost use Rattle.mr_model.specs.Routes.{routes};
ghost use Rattle.mr_model.specs.Switches.{pim, asserts};
ghost use Rattle.mr_model.specs.Unread.{unread};
ghost use Rattle.mr_model.specs.Vifs.{vifs};
ghost use Rattle.mr_model.specs.declared.message.Kind.TheVariants.{NoCache};
ghost use Rattle.mr_rows.specs.Samples.{daemon, register, report, route_totals, vif};
ghost use Rattle.mr_rows.specs.ControlErrors as errors;
ghost use Rattle.mr_rows.specs.AllChanges as every;
ghost use Rattle.mr_rows.specs.CountersStartAgain as again;
ghost use Rattle.mr_rows.specs.ChecksInOrder as checks;
ghost use Rattle.mr_rows.specs.ChangedInPlace as changing;
ghost use Rattle.mr_rows.specs.DaemonPolls as polls;
ghost use Rattle.mr_rows.specs.FlushedByBits as flushes;
ghost use Rattle.mr_rows.specs.OwnerChanges as owners;
ghost use Rattle.mr_rows.specs.StaticByCaller as leaving;
ghost use Rattle.mr_rows.specs.SwitchesSet as switching;
ghost use Rattle.mr_rows.specs.VifMadeAgain as vif_again;

/// Each refused call has its errno. Without access there is no change, and a second owner is
/// refused. The vifs stand in the order in which they were added.
pub fn control_errors()
    ensures legal { IsLegal errors.limits errors.history }
    ensures ending { ending errors.limits errors.history ≡ errors.tail }
    ensures lively { IsLively errors.limits errors.history }
    ensures owner { owner errors.history ≡ Some (daemon 1) }
    ensures vifs { vifs errors.limits errors.history ≡ register 5 10 ∷ vif 0 1 14 ∷ [] }
    ensures pim { pim errors.history ≡ false }
{}

/// An entry that is deleted and added again counts from nothing, while the vifs keep what they
/// counted.
pub fn counters_start_again()
    ensures legal { IsLegal again.limits again.history }
    ensures ending { ending again.limits again.history ≡ again.tail }
    ensures fast_legal { IsLegal again.limits again.fast_history }
    ensures fast_lively { IsLively again.limits again.fast_history }
    ensures fast_ending { ending again.limits again.fast_history ≡ again.tail }
    ensures changes { changes again.limits again.history ≡ again.changed }
    ensures first_entry { route_counts again.history 4 ≡ route_totals 1 28 0 }
{}

/// Each change of the tables has the number of its call and the values that hold after it: an old
/// entry and one that goes by its number, thresholds of vifs that are there, and whether it is
/// static. Init and what is refused or only reads change nothing, and an owner that leaves
/// flushes.
pub fn all_changes()
    ensures legal { IsLegal every.limits every.history }
    ensures changes { changes every.limits every.history ≡ every.changed }
{}

/// What another admin adds is static and stays when the owner leaves. The owner's own entry and
/// vifs go, and the packet that waited is dropped.
pub fn static_by_caller()
    ensures legal { IsLegal leaving.limits leaving.history }
    ensures ending { ending leaving.limits leaving.history ≡ leaving.tail }
    ensures lively { IsLively leaving.limits leaving.history }
    ensures owner_before { owner leaving.before_leaving ≡ Some (daemon 1) }
    ensures owner_after { owner leaving.history ≡ None }
{}

/// An entry that is there is changed in place: it keeps its number, and once another admin has
/// changed it it stays static. The calls that name the parent tell entries of one origin and group
/// apart; the others take the newest. A full table refuses a new entry and no change.
pub fn changed_in_place()
    ensures legal { IsLegal changing.limits changing.history }
    ensures ending { ending changing.limits changing.history ≡ changing.tail }
    ensures both { routes changing.limits changing.changed ≡ changing.both }
{}

/// Pim sets assert too where its truth value changes, and nothing else where it does not; assert
/// sets itself.
pub fn switches_set()
    ensures legal { IsLegal switching.limits switching.history }
    ensures ending { ending switching.limits switching.history ≡ switching.tail }
    ensures apart_pim { pim switching.apart ≡ true }
    ensures apart_asserts { asserts switching.apart ≡ false }
    ensures pim { pim switching.history ≡ false }
    ensures asserts { asserts switching.history ≡ true }
{}

/// Each bit of a flush takes its own kind of entries or vifs, and the first one the waiting packets
/// as well. Other bits mean nothing.
pub fn flushed_by_bits()
    ensures legal { IsLegal flushes.limits flushes.history }
    ensures middle { ending flushes.limits flushes.static_gone ≡ flushes.middle }
    ensures ending { ending flushes.limits flushes.history ≡ flushes.tail }
{}

/// A vif that is deleted and added again counts from nothing, and its entry's threshold stays.
pub fn vif_made_again()
    ensures legal { IsLegal vif_again.limits vif_again.history }
    ensures ending { ending vif_again.limits vif_again.history ≡ vif_again.tail }
{}

/// When the owner leaves, what waits and what is unread goes. The next owner may be a plain daemon.
/// It alone gets the reports from then on, and what an admin adds beside it is static.
pub fn owner_changes()
    ensures legal { IsLegal owners.limits owners.history }
    ensures lively { IsLively owners.limits owners.history }
    ensures ending { ending owners.limits owners.history ≡ owners.tail }
    ensures unread_before { unread owners.limits owners.before_leaving ≡ report NoCache 0 1 ∷ [] }
    ensures unread_of_second { unread owners.limits owners.second_reported
        ≡ report NoCache 1 2 ∷ [] }
    ensures unread_after { unread owners.limits owners.history ≡ [] }
    ensures owner { owner owners.history ≡ Some (daemon 2) }
{}

/// Receives that find no report give none, and an owner that leaves takes its vifs and entries
/// along.
pub fn daemon_polls()
    ensures legal { IsLegal polls.limits polls.history }
    ensures ending { ending polls.limits polls.history ≡ polls.tail }
{}

/// Access is checked before a record's length, this before the option, and this before the rules of
/// the request. An Init of wrong length needs no access, nor does what only reads, and only the
/// owner may leave.
pub fn checks_in_order()
    ensures legal { IsLegal checks.limits checks.history }
    ensures ending { ending checks.limits checks.history ≡ checks.tail }
{}
