//! What becomes of a packet (ipmr.c, `ip_mr_input`, `ip_mr_forward` and `ipmr_cache_unresolved`).

ghost use Rattle.std.specs.Prelude.{◌≡◌, ℕ, true, IsTrue, IfSome};
ghost use Rattle.std.specs.List.{list_any};
ghost use Rattle.mr_model.specs.RouteList.{has_number};
ghost use Rattle.mr_base.specs.declared.numbers.DaemonNo.{DaemonNo};
ghost use Rattle.mr_model.specs.declared.limits.Limits.{Limits};
ghost use Rattle.mr_model.specs.State.{State, is_owner};
ghost use Rattle.mr_model.specs.Unread.{accepts_in};
ghost use Rattle.mr_model.specs.Found.{found_in};
ghost use Rattle.mr_model.specs.Outcome.{is_due, asks_report, wrong_report, judged, unmet};
ghost use Rattle.mr_model.specs.Outcome.{outcome_in};
ghost use Rattle.mr_model.specs.Messages.{last_attempt};
ghost use Rattle.mr_model.specs.VifList.{vif_on};
ghost use Rattle.mr_kernel.specs.Standing.{StandsFor};

use crate::live::Live;
use mr_base::{ASSERT_GAP_MS, DaemonNo, Route};
use mr_mfc::reaches;
use mr_model::{Cause, Flow, Outcome, Report, Verdict};
use mr_unres::Room;
use mr_upcall::MOST_UNREAD;

/// Whether a daemon is the owner.
pub fn is_owner(live: &Live, daemon: DaemonNo) -> bool
    ensures { (s : State) → live.now.owner ≡ s.owner → result ≡ is_owner s daemon }
{
    match live.owner {
        None => false,
        Some(owner) => owner.0 == daemon.0,
    }
}

/// Whether a report would be accepted: there is an owner, and fewer than 64 are unread.
#[tactic(auto, using(crate::proofs::Lists::unread_count))]
pub fn accepts(live: &Live) -> bool
    ensures { (limits : Limits) (s : State) → StandsFor limits s live.now → result ≡ accepts_in s }
{
    live.owner.is_some() && (live.unread.len() as usize) < MOST_UNREAD
}

/// The entry that a packet meets.
#[tactic(auto, using(mr_tables::proofs::Found::named_entry, mr_mfc::proofs::Falling::number_there))]
pub fn found(live: &Live, flow: &Flow) -> Option<Route>
    ensures met { result ≡ found_in live.now.tables.tables.vifs live.now.tables.tables.routes
        flow.now.dev flow.now.src flow.now.dst }
    ensures there { IfSome result (λ r.
        list_any (has_number r.number) live.now.tables.tables.routes ≡ true) }
{
    let cache = live.tables.cache();
    if let Some(route) = cache.find(flow.src, flow.dst, None) {
        return Some(route);
    }
    let vif = live.tables.vifs().of_device(flow.dev)?;
    match cache.star(flow.dst, vif) {
        Some(route) => Some(route),
        None => cache.proxy(vif),
    }
}

/// What becomes of a packet that met no entry.
#[tactic(auto, using(crate::proofs::Lists::unread_count, crate::proofs::Lists::waiting_count))]
fn unmet(live: &Live, flow: &Flow) -> Outcome
    ensures { (limits : Limits) (s : State) → StandsFor limits s live.now →
        result ≡ unmet limits s flow.now (vif_on s.tables.vifs flow.now.dev) }
{
    if live.tables.vifs().of_device(flow.dev).is_none() {
        return Outcome::Dropped(Cause::NoVif);
    }
    match live.waiting.room(flow.src, flow.dst) {
        Room::PacketsFull => Outcome::Dropped(Cause::Packets),
        Room::Join => Outcome::Parked,
        Room::EntriesFull => Outcome::Dropped(Cause::Entries),
        Room::New => {
            if live.owner.is_none() {
                Outcome::Dropped(Cause::NoDaemon)
            } else if (live.unread.len() as usize) < MOST_UNREAD {
                Outcome::Parked
            } else {
                Outcome::Dropped(Cause::Upcall)
            }
        }
    }
}

/// Whether a report of a wrong interface is due: the last attempt was more than
/// [`ASSERT_GAP_MS`] ago, or there was none.
fn is_due(moment: u64, last: Option<u64>) -> bool
    ensures { result ≡ is_due moment last }
{
    match last {
        None => true,
        Some(last) => moment.saturating_sub(last) > ASSERT_GAP_MS,
    }
}

/// The moment of the last attempt for an entry, which is there.
fn last_attempt(live: &Live, route: &Route) -> Option<u64>
    ensures { (limits : Limits) (s : State) → StandsFor limits s live.now →
        list_any (has_number route.now.number) s.tables.routes ≡ true →
        result ≡ last_attempt s.attempts route.now.number }
{
    match live.attempts.get(route.number) {
        None => None,
        Some(last) => last,
    }
}

/// Whether a wrong interface is to be reported.
fn asks_report(live: &Live, route: &Route, vif: Option<u8>) -> bool
    ensures { (limits : Limits) (s : State) → StandsFor limits s live.now →
        list_any (has_number route.now.number) s.tables.routes ≡ true →
        result ≡ asks_report s route.now vif }
{
    match vif {
        None => false,
        Some(vif) => {
            live.tables.assert_on()
                && (live.tables.pim() || reaches(route, vif))
                && is_due(live.moment, last_attempt(live, route))
        }
    }
}

/// Whether and how a wrong interface is reported.
fn wrong_report(live: &Live, route: &Route, vif: Option<u8>) -> Report
    ensures { (limits : Limits) (s : State) → StandsFor limits s live.now →
        list_any (has_number route.now.number) s.tables.routes ≡ true →
        result ≡ wrong_report s route.now vif }
{
    if !asks_report(live, route, vif) {
        Report::Quiet
    } else if accepts(live) {
        Report::Told
    } else {
        Report::Lost
    }
}

/// What becomes of a packet that meets this entry, which is there.
pub fn judge(live: &Live, route: &Route, dev: u32, ttl: u8) -> Outcome
    ensures { (limits : Limits) (s : State) → StandsFor limits s live.now →
        list_any (has_number route.now.number) s.tables.routes ≡ true →
        result ≡ judged s route.now dev ttl }
{
    match live.tables.judge(route, dev, ttl) {
        Verdict::Forward { entry, input, outs } => Outcome::Forward { entry, input, outs },
        Verdict::Register { entry, input, outs } => Outcome::Register {
            entry,
            input,
            outs,
            told: accepts(live),
        },
        Verdict::Wrong { entry, vif } => Outcome::Wrong {
            entry,
            vif,
            report: wrong_report(live, route, vif),
        },
        Verdict::Miss { .. } | Verdict::NoVif => Outcome::Parked,
    }
}

/// What becomes of a packet.
pub fn decide(live: &Live, flow: &Flow) -> Outcome
    ensures { (limits : Limits) (s : State) → StandsFor limits s live.now →
        result ≡ outcome_in limits s flow.now }
{
    match found(live, flow) {
        None => unmet(live, flow),
        Some(route) => judge(live, &route, flow.dev, flow.ttl),
    }
}
