//! One value of a worked history or ending is another, and it is none.

ghost use Rattle.std.specs.Prelude.{◌≡◌, ℕ, true};
ghost use Rattle.mr_model.specs.declared.ending.Fate.TheVariants.{Released, Expired, Flushed};
ghost use Rattle.mr_model.specs.declared.ending.Fate.TheVariants.{Waiting};
ghost use Rattle.mr_model.specs.Ending.{ending};
ghost use Rattle.mr_model.specs.Fate.{IsFate, was_parked};
ghost use Rattle.mr_model.specs.Legal.{IsLegal};
ghost use Rattle.mr_model.specs.Lively.{IsLively};
ghost use Rattle.mr_rows.specs.Samples.{lane};
ghost use Rattle.mr_rows.specs.ControlErrors as errors;
ghost use Rattle.mr_rows.specs.CountersStartAgain as again;
ghost use Rattle.mr_rows.specs.Expiry as expiring;
ghost use Rattle.mr_rows.specs.FullSettle as full_settle;
ghost use Rattle.mr_rows.specs.NobodyOwns as nobody;
ghost use Rattle.mr_rows.specs.OrdinaryPath as ordinary;
ghost use Rattle.mr_rows.specs.RegisterCopiesLost as lost;
ghost use Rattle.mr_rows.specs.RegisterReport as copied;
ghost use Rattle.mr_rows.specs.StarEntry as star;
ghost use Rattle.mr_rows.specs.StaticByCaller as leaving;
ghost use Rattle.mr_rows.specs.Thresholds as levels;
ghost use Rattle.mr_rows.specs.TwoVifsOnADevice as shared;
ghost use Rattle.mr_rows.specs.VifAddedLater as later;
ghost use Rattle.mr_rows.specs.WaitingEntriesFull as full;
ghost use Rattle.mr_rows.specs.WaitingPacketsReleased as release;
ghost use Rattle.mr_rows.specs.WildcardReleasesNothing as wildcard;
ghost use Rattle.mr_rows.specs.WrongInterface as wrong;
ghost use Rattle.mr_rows.specs.NearMisses as misses;

/// A call has one answer: another errno, a grant without a right to it, a second owner, a daemon
/// that there is not, or the counts of an entry that is gone make no legal history.
pub fn control_near_misses()
    ensures other_errno { IsLegal errors.limits misses.other_errno → ⊥ }
    ensures deleted_twice { IsLegal errors.limits misses.deleted_twice → ⊥ }
    ensures granted_without_access { IsLegal errors.limits misses.granted_without_access → ⊥ }
    ensures second_owner { IsLegal errors.limits misses.second_owner → ⊥ }
    ensures daemon_zero { IsLegal errors.limits misses.daemon_zero → ⊥ }
    ensures daemon_three { IsLegal errors.limits misses.daemon_three → ⊥ }
    ensures old_counts { IsLegal again.limits misses.old_counts → ⊥ }
{}

/// A packet goes out just where the rules say: not at an equal TTL, not on a vif that its entry
/// does not know, not back, not by a wildcard where there is a closer entry. Without the lock
/// nothing but a plain forward passes.
pub fn forwarding_near_misses()
    ensures equal_ttl { IsLegal levels.limits misses.equal_ttl → ⊥ }
    ensures late_vif { IsLegal later.limits misses.late_vif → ⊥ }
    ensures sent_back { IsLegal star.limits misses.sent_back → ⊥ }
    ensures wildcard_first { IsLegal star.limits misses.wildcard_first → ⊥ }
    ensures wrong_settled { IsLegal ordinary.limits misses.wrong_settled → ⊥ }
    ensures other_vif_settled { IsLegal ordinary.limits misses.other_vif_settled → ⊥ }
    ensures empty_settle { IsLegal ordinary.limits misses.empty_settle → ⊥ }
{}

/// A look lies between what its lane has seen and the present, the indexes of a lane rise, and
/// lanes are those of the limits, as are packets, phases and control entries.
pub fn place_near_misses()
    ensures old_look { IsLegal ordinary.limits misses.old_look → ⊥ }
    ensures old_settled_look { IsLegal ordinary.limits misses.old_settled_look → ⊥ }
    ensures look_ahead { IsLegal ordinary.limits misses.look_ahead → ⊥ }
    ensures look_before_own { IsLegal levels.limits misses.look_before_own → ⊥ }
    ensures settled_before_own { IsLegal levels.limits misses.settled_before_own → ⊥ }
    ensures index_again { IsLegal wildcard.limits misses.index_again → ⊥ }
    ensures short_count_apart { IsLegal shared.limits misses.short_count_apart → ⊥ }
    ensures counted_look { IsLegal shared.limits misses.counted_look → ⊥ }
    ensures full_count { IsLegal full_settle.limits misses.full_count → ⊥ }
    ensures record_again { IsLegal levels.limits misses.record_again → ⊥ }
    ensures lane_two { IsLegal ordinary.limits misses.lane_two → ⊥ }
    ensures no_packets { IsLegal misses.no_packets ordinary.history → ⊥ }
    ensures one_phase { IsLegal misses.one_phase ordinary.history → ⊥ }
    ensures three_controls { IsLegal misses.three_controls ordinary.history → ⊥ }
{}

/// A packet waits just where it is to wait, is released once and by its own entry, and is dropped
/// for the first cause that holds.
pub fn waiting_near_misses()
    ensures fifth_parked { IsLegal release.limits misses.fifth_parked → ⊥ }
    ensures released_twice { IsLegal release.limits misses.released_twice → ⊥ }
    ensures kept_back { IsLegal release.limits misses.kept_back → ⊥ }
    ensures wildcard_releases { IsLegal wildcard.limits misses.wildcard_releases → ⊥ }
    ensures parked_again { IsLegal wildcard.limits misses.parked_again → ⊥ }
    ensures wrong_cause { IsLegal nobody.limits misses.wrong_cause → ⊥ }
    ensures eleventh_parked { IsLegal full.limits misses.eleventh_parked → ⊥ }
{}

/// A report is told, lost or left out just as the rules say, and a receive gives the oldest unread
/// one, once and to the owner alone.
pub fn report_near_misses()
    ensures told_though_quiet { IsLegal wrong.limits misses.told_though_quiet → ⊥ }
    ensures quiet_at_first { IsLegal wrong.limits misses.quiet_at_first → ⊥ }
    ensures lost_with_room { IsLegal copied.limits misses.lost_with_room → ⊥ }
    ensures told_without_room { IsLegal lost.limits misses.told_without_room → ⊥ }
    ensures lower_vif { IsLegal shared.limits misses.lower_vif → ⊥ }
    ensures other_message { IsLegal release.limits misses.other_message → ⊥ }
    ensures read_twice { IsLegal release.limits misses.read_twice → ⊥ }
    ensures read_by_another { IsLegal leaving.limits misses.read_by_another → ⊥ }
{}

/// A packet that waits expires at the tick that makes ten seconds full, not at the one before, and
/// not a millisecond early; and an entry that another admin made is static in the ending.
pub fn ending_near_misses()
    ensures early { ending expiring.limits expiring.history ≡ misses.early_tail → ⊥ }
    ensures short_ticks { ending expiring.limits misses.short_ticks ≡ expiring.tail → ⊥ }
    ensures plain { ending leaving.limits leaving.history ≡ misses.plain_tail → ⊥ }
{}

/// Of a packet that is kept back at a release no fate holds, though it was parked. Of one that is
/// released twice two fates hold. Neither history is legal.
pub fn fate_near_misses()
    ensures kept_back_parked { was_parked misses.kept_back (lane 1) 4 ≡ true }
    ensures kept_back_released { (n : ℕ) →
        IsFate release.limits misses.kept_back (lane 1) 4 (Released n) → ⊥ }
    ensures kept_back_expired { (n : ℕ) →
        IsFate release.limits misses.kept_back (lane 1) 4 (Expired n) → ⊥ }
    ensures kept_back_flushed { (n : ℕ) →
        IsFate release.limits misses.kept_back (lane 1) 4 (Flushed n) → ⊥ }
    ensures kept_back_waiting { IsFate release.limits misses.kept_back (lane 1) 4 Waiting → ⊥ }
    ensures released_first { IsFate release.limits misses.released_again (lane 1) 1 (Released 13) }
    ensures released_again { IsFate release.limits misses.released_again (lane 1) 1 (Released 14) }
    ensures again_refused { IsLegal release.limits misses.released_again → ⊥ }
{}

/// A lively history takes the lock for no plain forward, and settles a lane's packets together as
/// long as nothing else stands between. Both of these are legal, and neither is lively.
pub fn lively_near_misses()
    ensures slow_forward { IsLively ordinary.limits ordinary.history → ⊥ }
    ensures split_legal { IsLegal misses.two_packets misses.split_settles }
    ensures split_settles { IsLively misses.two_packets misses.split_settles → ⊥ }
{}
