//! Reports of decided packets (ipmr.c, `ipmr_cache_report`).

ghost use Rattle.std.specs.Prelude.{◌≡◌, ◌<◌, ℕ, List, true, length, map, option_map};
ghost use Rattle.std.specs.Prelude.{option_to_list, IfSome};
ghost use Rattle.mr_model.specs.declared.entry.Entry.{Entry};
ghost use Rattle.mr_model.specs.declared.limits.Limits.{Limits};
ghost use Rattle.mr_model.specs.Messages.{told_by, attempts_by};
ghost use Rattle.mr_model.specs.Legal.{message_for};
ghost use Rattle.mr_model.specs.State.{State, received, reported};
ghost use Rattle.mr_kernel.specs.Flows.{AreHeads, IsHeadOf};
ghost use Rattle.mr_kernel.specs.Standing.{StandsFor, attempt_at, attempted, told, tells};

use crate::deciding::is_owner;
use crate::live::Live;
use mr_base::{DaemonNo, Few, Head, LaneNo};
use mr_model::{Kind, MessageId, Outcome, Report};
use mr_tables::Tables;
use mr_upcall::Upcall;

/// A head like this one.
pub fn head_like(head: &Head) -> Head
    ensures { result ≡ head.now }
{
    Head {
        bytes: Few::from_slice(head.bytes.0.as_slice()),
        length: head.length,
        ttl: head.ttl,
        src: head.src,
        dst: head.dst,
    }
}

/// The entry for which a report of a wrong interface is attempted.
fn attempt_of(outcome: &Outcome) -> Option<u32>
    ensures { (moment : ℕ) → attempts_by moment outcome.now
        ≡ option_to_list (option_map (attempt_at moment) result) }
{
    match *outcome {
        Outcome::Wrong {
            report: Report::Quiet,
            ..
        } => None,
        Outcome::Wrong { entry, .. } => Some(entry),
        _ => None,
    }
}

/// The report that a decided packet pushes.
fn message_of(tables: &Tables, lane: LaneNo, index: u32, outcome: &Outcome) -> Option<MessageId>
    ensures { told_by tables.now.tables.vifs lane index outcome.now ≡ option_to_list result }
{
    let (kind, vif) = match *outcome {
        Outcome::Register { told: true, .. } => {
            (Kind::WholePkt, tables.vifs().register().unwrap_or(0))
        }
        Outcome::Wrong {
            vif,
            report: Report::Told,
            ..
        } => (Kind::WrongVif, vif.unwrap_or(0)),
        _ => return None,
    };
    Some(MessageId {
        kind,
        vif,
        lane,
        index,
    })
}

/// Keeps the attempt that a decided packet makes.
fn attempt(live: &mut Live, outcome: &Outcome)
    ensures stands { (limits : Limits) (s : State) → StandsFor limits s live.old →
        StandsFor limits (attempted s outcome.now) live.new }
    ensures unread { live.new.unread ≡ live.old.unread }
    ensures tables { live.new.tables ≡ live.old.tables }
    ensures moment { live.new.moment ≡ live.old.moment }
{
    live.attempts.facts();
    let Some(entry) = attempt_of(outcome) else {
        return;
    };
    match live.attempts.get(entry) {
        None => {}
        Some(_) => live.attempts.set(entry, Some(live.moment)),
    }
}

/// Pushes the report that a decided packet tells.
fn tell(live: &mut Live, lane: LaneNo, index: u32, head: &Head, outcome: &Outcome)
    ensures stands { (limits : Limits) (s : State) → StandsFor limits s live.old →
        (tells outcome.now ≡ true → length s.unread < 64) →
        StandsFor limits (told s lane index outcome.now) live.new }
    ensures heads { (h : List Entry) → AreHeads h live.old.unread
        → IsHeadOf h lane index head.now →
        AreHeads h live.new.unread }
    ensures tables { live.new.tables ≡ live.old.tables }
    ensures moment { live.new.moment ≡ live.old.moment }
{
    if let Some(id) = message_of(&live.tables, lane, index, outcome) {
        let head = head_like(head);
        let _ = live.unread.push(Upcall { id, head });
    }
}

/// What a decided packet tells and attempts.
pub fn report(live: &mut Live, lane: LaneNo, index: u32, head: &Head, outcome: &Outcome)
    ensures stands { (limits : Limits) (s : State) → StandsFor limits s live.old →
        (tells outcome.now ≡ true → length s.unread < 64) →
        StandsFor limits (reported s lane index outcome.now) live.new }
    ensures heads { (h : List Entry) → AreHeads h live.old.unread
        → IsHeadOf h lane index head.now →
        AreHeads h live.new.unread }
    ensures tables { live.new.tables ≡ live.old.tables }
    ensures moment { live.new.moment ≡ live.old.moment }
{
    attempt(live, outcome);
    tell(live, lane, index, head, outcome);
}

/// Takes the oldest unread report, where the daemon is the owner.
pub fn take(live: &mut Live, daemon: DaemonNo) -> Option<Upcall>
    ensures message { (limits : Limits) (s : State) → StandsFor limits s live.old →
        option_map (λ u. u.id) result ≡ message_for s daemon }
    ensures stands { (limits : Limits) (s : State) → StandsFor limits s live.old →
        StandsFor limits (received s (message_for s daemon)) live.new }
    ensures head { (h : List Entry) → AreHeads h live.old.unread →
        IfSome result (λ u. IsHeadOf h u.id.lane u.id.index u.head) }
    ensures heads { (h : List Entry) → AreHeads h live.old.unread → AreHeads h live.new.unread }
    ensures tables { live.new.tables ≡ live.old.tables }
    ensures moment { live.new.moment ≡ live.old.moment }
{
    if is_owner(live, daemon) {
        live.unread.pop()
    } else {
        None
    }
}
