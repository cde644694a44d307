//! Packets that miss.

ghost use Rattle.std.specs.Prelude.{◌≡◌, [], ◌∷◌};
ghost use Rattle.mr_model.specs.declared.ending.Fate.TheVariants.{Released, Expired, Flushed};
ghost use Rattle.mr_model.specs.declared.ending.Fate.TheVariants.{Waiting};
ghost use Rattle.mr_model.specs.Ending.{ending};
ghost use Rattle.mr_model.specs.Fate.{IsFate};
ghost use Rattle.mr_model.specs.Legal.{IsLegal};
ghost use Rattle.mr_model.specs.Lively.{IsLively};
ghost use Rattle.mr_model.specs.Now.{now};
ghost use Rattle.mr_model.specs.Unread.{unread};
ghost use Rattle.mr_model.specs.Waiting.{waiting};
ghost use Rattle.mr_rows.specs.Samples.{lane};
ghost use Rattle.mr_rows.specs.Expiry as expiring;
ghost use Rattle.mr_rows.specs.FlushedByBits as flushes;
ghost use Rattle.mr_rows.specs.JoinsWhenFull as joining;
ghost use Rattle.mr_rows.specs.NobodyOwns as nobody;
ghost use Rattle.mr_rows.specs.NoRoomTwice as twice;
ghost use Rattle.mr_rows.specs.StaticByCaller as leaving;
ghost use Rattle.mr_rows.specs.WaitingEntriesFull as full;
ghost use Rattle.mr_rows.specs.WaitingPacketsReleased as release;
ghost use Rattle.mr_rows.specs.WaitsFromTheFirst as first_packet;
ghost use Rattle.mr_rows.specs.WildcardReleasesNothing as wildcard;

/// Four packets of one source and group wait, a fifth is dropped. A new entry releases the four,
/// oldest first, and counts them at its own call.
pub fn waiting_packets_released()
    ensures legal { IsLegal release.limits release.history }
    ensures ending { ending release.limits release.history ≡ release.tail }
    ensures lively { IsLively release.limits release.history }
    ensures nothing_waits { waiting release.limits release.history ≡ [] }
{}

/// Each of the four fates as a fact of a packet: the call that names it, the tick that makes ten
/// seconds full, the owner that leaves and the flush by flag 1, and none of them so far.
pub fn facts_of_fates()
    ensures released { IsFate release.limits release.history (lane 1) 4 (Released 13) }
    ensures expired { IsFate expiring.limits expiring.history (lane 1) 1 (Expired 7) }
    ensures left { IsFate leaving.limits leaving.history (lane 1) 1 (Flushed 11) }
    ensures flushed { IsFate flushes.limits flushes.history (lane 1) 1 (Flushed 12) }
    ensures waits { IsFate flushes.limits flushes.static_gone (lane 1) 1 Waiting }
{}

/// Without an owner no packet waits.
pub fn nobody_owns()
    ensures legal { IsLegal nobody.limits nobody.history }
    ensures ending { ending nobody.limits nobody.history ≡ nobody.tail }
    ensures lively { IsLively nobody.limits nobody.history }
{}

/// A packet expires at the tick that makes ten seconds full.
pub fn expiry()
    ensures legal { IsLegal expiring.limits expiring.history }
    ensures ending { ending expiring.limits expiring.history ≡ expiring.tail }
    ensures lively { IsLively expiring.limits expiring.history }
    ensures now { now expiring.history ≡ 10000 }
{}

/// An entry for any origin releases nothing.
pub fn wildcard_releases_nothing()
    ensures legal { IsLegal wildcard.limits wildcard.history }
    ensures ending { ending wildcard.limits wildcard.history ≡ wildcard.tail }
    ensures fast_legal { IsLegal wildcard.limits wildcard.fast_history }
    ensures fast_lively { IsLively wildcard.limits wildcard.fast_history }
    ensures fast_ending { ending wildcard.limits wildcard.fast_history ≡ wildcard.tail }
{}

/// No more than the limit of waiting entries is made.
pub fn waiting_entries_full()
    ensures legal { IsLegal full.limits full.history }
    ensures ending { ending full.limits full.history ≡ full.tail }
    ensures lively { IsLively full.limits full.history }
{}

/// The packets of one source and group expire together, ten seconds after the first of them missed.
/// The next one then makes another waiting entry, which is reported again.
pub fn waits_from_the_first()
    ensures legal { IsLegal first_packet.limits first_packet.history }
    ensures lively { IsLively first_packet.limits first_packet.history }
    ensures ending { ending first_packet.limits first_packet.history ≡ first_packet.tail }
    ensures unread { unread first_packet.limits first_packet.history ≡ first_packet.reports }
    ensures now { now first_packet.history ≡ 16000 }
{}

/// A packet joins the waiting entry of its source and group also where no further entry may be
/// made, up to four.
pub fn joins_when_full()
    ensures legal { IsLegal joining.limits joining.history }
    ensures lively { IsLively joining.limits joining.history }
    ensures ending { ending joining.limits joining.history ≡ joining.tail }
    ensures waiting { waiting joining.limits joining.history ≡ joining.joined }
{}

/// Want of a waiting entry is found before want of room for a report; and a packet that joins needs
/// no report.
pub fn no_room_twice()
    ensures legal { IsLegal twice.limits twice.history }
    ensures lively { IsLively twice.limits twice.history }
    ensures ending { ending twice.limits twice.history ≡ twice.tail }
{}
