//! The packets that a new entry releases, and what becomes of them.

ghost use Rattle.std.specs.Prelude.{◌≡◌, ℕ, ◌<◌, ◌≤◌, ◌∷◌, ◌↔◌, IsTrue, if◌then◌else◌, List};
ghost use Rattle.std.specs.Prelude.{false, option_map, option_to_list, length, map};
ghost use Rattle.std.specs.Prelude.{IfOk};
ghost use Rattle.std.specs.List.{AllByRecursion, list_any};
ghost use Rattle.mr_base.specs.declared.numbers.LaneNo.{LaneNo};
ghost use Rattle.mr_base.specs.declared.vif_record.VifRecord.{VifRecord};
ghost use Rattle.mr_model.specs.declared.limits.Limits.{Limits};
ghost use Rattle.mr_model.specs.Answer.{release, made_route, freed_by, released_in};
ghost use Rattle.mr_model.specs.Found.{proxy_in};
ghost use Rattle.mr_model.specs.Messages.{told_by, attempts_by};
ghost use Rattle.mr_model.specs.RouteList.{is_named};
ghost use Rattle.mr_model.specs.State.{State, reported};
ghost use Rattle.mr_model.specs.Verdict.{passes_proxied};
ghost use Rattle.mr_plain_lists.specs.Knowing.{AreGroups, waiter, state_of};
ghost use Rattle.mr_plain.specs.Releasing.{Releases, Reporting, IsGranted, attempt_at};
ghost use Rattle.mr_plain_lists.specs.SmallRequests.{IsSmall};

use mr_base::{Addr, DaemonNo, MOST_UNREAD, Route};
use mr_model::{MfcCtl, Outcome, ReleasedId, Report, Request};
use mr_plain_lists::{
    Held, Known, Reports, Routes, group_of, has_named, is_entry, is_owner, judged, proxy_in,
    reaches, reports_of, thresholds, vif_on,
};
use std::alloc::{AllocError, Global};

/// The first (0.0.0.0, 0.0.0.0) entry that reaches a vif, with a new entry in front.
fn proxy_with(first: &Route, rest: &Routes, vif: u8) -> Option<Route>
    ensures { result ≡ proxy_in (first.now ∷ rest.now.items) vif }
{
    if is_entry(first, Addr(0), Addr(0)) && reaches(first, vif) {
        Some(*first)
    } else {
        proxy_in(rest, vif)
    }
}

/// Whether a packet that came in on this vif passes by the proxy entry of a new entry's parent.
fn proxied_with(first: &Route, rest: &Routes, vif: Option<u8>) -> bool
    ensures { result ≡ passes_proxied (first.now ∷ rest.now.items) first.now vif }
{
    let Some(vif) = vif else {
        return false;
    };
    if first.src.0 != 0 {
        return false;
    }
    match proxy_with(first, rest, first.parent) {
        None => false,
        Some(proxy) => reaches(&proxy, vif),
    }
}

/// Whether an outcome pushes a report.
fn tells(outcome: &Outcome) -> bool
    ensures { (vifs : List VifRecord) (lane : LaneNo) (index : ℕ) →
        length (told_by vifs lane index outcome.now) ≡ (if result then 1 else 0) }
{
    match outcome {
        Outcome::Register { told, .. } => *told,
        Outcome::Wrong { report, .. } => *report == Report::Told,
        _ => false,
    }
}

/// The entry for which an outcome attempts a report of a wrong interface.
pub(crate) fn attempted(outcome: &Outcome) -> Option<u32>
    ensures { (moment : ℕ) → attempts_by moment outcome.now
        ≡ option_to_list (option_map (attempt_at moment) result) }
{
    match *outcome {
        Outcome::Wrong {
            report: Report::Quiet,
            ..
        } => None,
        Outcome::Wrong { entry, .. } => Some(entry),
        _ => None,
    }
}

/// What is to be known of reports behind an outcome.
fn reports_after(known: &Known, route: &Route, reports: Reports, outcome: &Outcome) -> Reports
    ensures { (s : State) (lane : LaneNo) (index : ℕ) → known.now.moment ≡ s.now →
        Reporting reports route.now s →
        Reporting result route.now (reported s lane index outcome.now) }
{
    let unread = reports
        .unread
        .saturating_add(usize::from(tells(outcome)))
        .min(MOST_UNREAD);
    let last = match attempted(outcome) {
        Some(entry) if entry == route.number => Some(known.moment),
        _ => reports.last,
    };
    Reports { unread, last }
}

/// The packets that a new entry releases, with what becomes of each.
///
/// # Errors
///
/// Where memory runs out.
fn put_released(
    alloc: Global,
    known: &Known,
    route: &Route,
    reports: Reports,
    packets: &[Held],
) -> Result<Vec<ReleasedId>, AllocError>
    requires { AllByRecursion (λ v. v.vif < 32) known.now.vifs.items }
    ensures { (s : State) → Releases known.now route.now s → Reporting reports route.now s →
        IfOk result (λ v. v.items ≡ release s route.now (map waiter packets.now)) }
{
    let [w, later @ ..] = packets else {
        return Ok(Vec::new(alloc));
    };
    let vif = vif_on(known.vifs.as_slice(), w.flow.dev);
    let proxied = proxied_with(route, &known.routes, vif);
    let outcome = judged(known, reports, proxied, route, w.flow.dev, w.flow.ttl);
    let reports = reports_after(known, route, reports, &outcome);
    let mut released = put_released(alloc, known, route, reports, later)?;
    released.insert(
        0,
        ReleasedId {
            lane: w.lane,
            index: w.index,
            outcome,
        },
    )?;
    Ok(released)
}

/// Whether these are the packets that a new entry releases, with what becomes of each.
fn are_released(
    known: &Known,
    route: &Route,
    reports: Reports,
    packets: &[Held],
    released: &[ReleasedId],
) -> bool
    requires { AllByRecursion (λ v. v.vif < 32) known.now.vifs.items }
    ensures { (s : State) → Releases known.now route.now s → Reporting reports route.now s →
        IsTrue result ↔ (released.now ≡ release s route.now (map waiter packets.now)) }
{
    let [w, later @ ..] = packets else {
        return released.is_empty();
    };
    let [x, more @ ..] = released else {
        return false;
    };
    let vif = vif_on(known.vifs.as_slice(), w.flow.dev);
    let proxied = proxied_with(route, &known.routes, vif);
    let outcome = judged(known, reports, proxied, route, w.flow.dev, w.flow.ttl);
    let reports = reports_after(known, route, reports, &outcome);
    x.lane == w.lane
        && x.index == w.index
        && x.outcome == outcome
        && are_released(known, route, reports, later, more)
}

/// The entry that a call makes.
pub(crate) fn made_route(known: &Known, daemon: DaemonNo, c: &MfcCtl) -> Route
    requires parent { c.now.parent < 32 }
    requires room { known.now.count < 4294967295 }
    ensures { result ≡ made_route (state_of known.now) daemon c.now }
{
    Route {
        number: known.count + 1,
        src: c.src,
        dst: c.dst,
        parent: c.parent as u8,
        ttls: thresholds(known.vifs.as_slice(), &c.ttls),
        fixed: !is_owner(known, daemon),
    }
}

/// Whether these are the packets that a call with this entry releases; `parent`: where it too
/// names the entry.
fn released_for(
    known: &Known,
    daemon: DaemonNo,
    c: &MfcCtl,
    parent: Option<u16>,
    released: &[ReleasedId],
) -> bool
    requires vifs { AllByRecursion (λ v. v.vif < 32) known.now.vifs.items }
    requires groups { AreGroups known.now.waiting.items }
    requires parent { c.now.parent < 32 }
    requires room { known.now.count < 4294967295 }
    ensures { (s : State) → (list_any (is_named c.now.src c.now.dst parent) known.now.routes.items
        ≡ false → IsGranted known.now (made_route (state_of known.now) daemon c.now) s) →
        IsTrue result ↔ (released.now ≡ release s (made_route (state_of known.now) daemon c.now)
        (freed_by (state_of known.now) c.now parent)) }
{
    if has_named(&known.routes, c.src, c.dst, parent) {
        return released.is_empty();
    }
    match group_of(known.waiting.as_slice(), c.src, c.dst) {
        None => released.is_empty(),
        Some(group) => {
            let route = made_route(known, daemon, c);
            let reports = reports_of(known, &route);
            let packets = &group.packets[..group.count];
            are_released(known, &route, reports, packets, released)
        }
    }
}

/// The packets that a call with this entry releases; `parent`: where it too names the entry.
///
/// # Errors
///
/// Where memory runs out.
fn released_of(
    alloc: Global,
    known: &Known,
    daemon: DaemonNo,
    c: &MfcCtl,
    parent: Option<u16>,
) -> Result<Vec<ReleasedId>, AllocError>
    requires vifs { AllByRecursion (λ v. v.vif < 32) known.now.vifs.items }
    requires groups { AreGroups known.now.waiting.items }
    requires parent { c.now.parent < 32 }
    requires room { known.now.count < 4294967295 }
    ensures { (s : State) → (list_any (is_named c.now.src c.now.dst parent) known.now.routes.items
        ≡ false → IsGranted known.now (made_route (state_of known.now) daemon c.now) s) →
        IfOk result (λ v. v.items ≡ release s (made_route (state_of known.now) daemon c.now)
        (freed_by (state_of known.now) c.now parent)) }
{
    if has_named(&known.routes, c.src, c.dst, parent) {
        return Ok(Vec::new(alloc));
    }
    match group_of(known.waiting.as_slice(), c.src, c.dst) {
        None => Ok(Vec::new(alloc)),
        Some(group) => {
            let route = made_route(known, daemon, c);
            let reports = reports_of(known, &route);
            let packets = &group.packets[..group.count];
            put_released(alloc, known, &route, reports, packets)
        }
    }
}

/// The packets that a good call releases.
///
/// # Errors
///
/// Where memory runs out.
pub fn released_by(
    alloc: Global,
    known: &Known,
    daemon: DaemonNo,
    request: &Request,
) -> Result<Vec<ReleasedId>, AllocError>
    requires vifs { AllByRecursion (λ v. v.vif < 32) known.now.vifs.items }
    requires groups { AreGroups known.now.waiting.items }
    requires small { IsSmall request.now }
    requires room { known.now.count < 4294967295 }
    ensures { (limits : Limits) → IfOk result (λ v. v.items
        ≡ released_in limits (state_of known.now) daemon request.now) }
{
    match request {
        Request::AddMfc(ctl) => released_of(alloc, known, daemon, ctl, None),
        Request::AddProxy(ctl) => released_of(alloc, known, daemon, ctl, Some(ctl.parent)),
        _ => Ok(Vec::new(alloc)),
    }
}

/// Whether these are the packets that a good call releases.
pub fn releases(known: &Known, daemon: DaemonNo, request: &Request, released: &[ReleasedId]) -> bool
    requires vifs { AllByRecursion (λ v. v.vif < 32) known.now.vifs.items }
    requires groups { AreGroups known.now.waiting.items }
    requires small { IsSmall request.now }
    requires room { known.now.count < 4294967295 }
    ensures { (limits : Limits) → IsTrue result ↔ (released.now
        ≡ released_in limits (state_of known.now) daemon request.now) }
{
    match request {
        Request::AddMfc(ctl) => released_for(known, daemon, ctl, None, released),
        Request::AddProxy(ctl) => released_for(known, daemon, ctl, Some(ctl.parent), released),
        _ => released.is_empty(),
    }
}
