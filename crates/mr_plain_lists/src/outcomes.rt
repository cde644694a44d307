//! What becomes of a packet that is decided under the lock (ipmr.c, `ip_mr_forward` and
//! `ipmr_cache_unresolved`).

ghost use Rattle.std.specs.Prelude.{◌≡◌, ◌<◌, ◌≤◌, length, map, min, option_map, IfSome};
ghost use Rattle.std.specs.List.{AllByRecursion};
ghost use Rattle.mr_model.specs.Messages.{last_attempt};
ghost use Rattle.mr_model.specs.Outcome.{is_due, asks_report, wrong_report, decided, judged};
ghost use Rattle.mr_model.specs.Outcome.{parks_new, joins, unmet, outcome_in};
ghost use Rattle.mr_model.specs.State.{State, is_owner};
ghost use Rattle.mr_model.specs.Unread.{accepts_in};
ghost use Rattle.mr_model.specs.VifList.{vif_on};
ghost use Rattle.mr_model.specs.Verdict.{passes_proxied};
ghost use Rattle.mr_model.specs.WaitingList.{awaiting_of};
ghost use Rattle.mr_plain_lists.specs.Knowing.{IsGroup, AreGroups, awaiting, attempt, state_of};

use crate::entries::{found, reaches};
use crate::judging::{judge, passes_proxied};
use crate::known::{Group, Known, MOST_HELD, Tried};
use crate::vifs::vif_on;
use mr_base::{ASSERT_GAP_MS, Addr, DaemonNo, MOST_UNREAD, Route};
use mr_model::{Cause, Flow, Limits, Outcome, Report, Verdict};

/// Whether a daemon is the owner.
pub fn is_owner(known: &Known, daemon: DaemonNo) -> bool
    ensures { result ≡ is_owner (state_of known.now) daemon }
{
    match known.owner {
        None => false,
        Some(owner) => owner.0 == daemon.0,
    }
}

/// Whether a report would be accepted with so many unread, or with 64 or more.
pub fn accepts(known: &Known, unread: usize) -> bool
    ensures { (s : State) → known.now.owner ≡ s.owner → unread ≡ min (length s.unread) 64 →
        result ≡ accepts_in s }
{
    known.owner.is_some() && unread < MOST_UNREAD
}

/// The moment of the last attempt for an entry.
pub fn last_attempt(attempts: &[Tried], entry: u32) -> Option<u64>
    ensures { result ≡ last_attempt (map attempt attempts.now) entry }
{
    for t in attempts {
        if t.entry == entry {
            return Some(t.moment);
        }
    }
    None
}

/// Whether the last attempt was more than [`ASSERT_GAP_MS`] ago, or there was none.
fn is_due(now: u64, last: Option<u64>) -> bool
    ensures { result ≡ is_due now last }
{
    match last {
        None => true,
        Some(last) => now.saturating_sub(last) > ASSERT_GAP_MS,
    }
}

/// What is asked of the state to judge a packet that meets an entry: how many reports are unread
/// (64 stands for 64 or more), and when a wrong interface of that entry was last reported.
#[derive(Clone, Copy, Debug)]
pub struct Reports {
    pub unread: usize,
    pub last: Option<u64>,
}

/// What is to be known to judge a packet that meets this entry.
pub fn reports_of(known: &Known, route: &Route) -> Reports
    ensures unread { result.unread ≡ min (length known.now.unread.items) 64 }
    ensures last { result.last
        ≡ last_attempt (map attempt known.now.attempts.items) route.now.number }
{
    Reports {
        unread: known.unread.as_slice().len().min(MOST_UNREAD),
        last: last_attempt(known.attempts.as_slice(), route.number),
    }
}

/// Whether a wrong interface is to be reported.
fn asks_report(known: &Known, reports: Reports, route: &Route, vif: Option<u8>) -> bool
    ensures { (s : State) → known.now.pim ≡ s.tables.pim → known.now.asserts ≡ s.tables.asserts →
        known.now.moment ≡ s.now → reports.last ≡ last_attempt s.attempts route.now.number →
        result ≡ asks_report s route.now vif }
{
    match vif {
        None => false,
        Some(vif) => {
            known.asserts
                && (known.pim || reaches(route, vif))
                && is_due(known.moment, reports.last)
        }
    }
}

/// Whether and how a wrong interface is reported.
fn wrong_report(known: &Known, reports: Reports, route: &Route, vif: Option<u8>) -> Report
    ensures { (s : State) → known.now.owner ≡ s.owner → known.now.pim ≡ s.tables.pim →
        known.now.asserts ≡ s.tables.asserts → known.now.moment ≡ s.now →
        reports.unread ≡ min (length s.unread) 64 →
        reports.last ≡ last_attempt s.attempts route.now.number →
        result ≡ wrong_report s route.now vif }
{
    if !asks_report(known, reports, route, vif) {
        Report::Quiet
    } else if accepts(known, reports.unread) {
        Report::Told
    } else {
        Report::Lost
    }
}

/// What a verdict of an entry comes to.
fn decided(known: &Known, reports: Reports, route: &Route, verdict: Verdict) -> Outcome
    ensures { (s : State) → known.now.owner ≡ s.owner → known.now.pim ≡ s.tables.pim →
        known.now.asserts ≡ s.tables.asserts → known.now.moment ≡ s.now →
        reports.unread ≡ min (length s.unread) 64 →
        reports.last ≡ last_attempt s.attempts route.now.number →
        result ≡ decided s route.now verdict }
{
    match verdict {
        Verdict::Forward { entry, input, outs } => Outcome::Forward { entry, input, outs },
        Verdict::Register { entry, input, outs } => Outcome::Register {
            entry,
            input,
            outs,
            told: accepts(known, reports.unread),
        },
        Verdict::Wrong { entry, vif } => Outcome::Wrong {
            entry,
            vif,
            report: wrong_report(known, reports, route, vif),
        },
        Verdict::Miss { .. } | Verdict::NoVif => Outcome::Parked,
    }
}

/// What becomes of a packet that meets an entry; `proxied`: it passes by the proxy entry of that
/// entry's parent.
pub fn judged(
    known: &Known,
    reports: Reports,
    proxied: bool,
    route: &Route,
    dev: u32,
    ttl: u8,
) -> Outcome
    requires { AllByRecursion (λ v. v.vif < 32) known.now.vifs.items }
    ensures { (s : State) → known.now.vifs.items ≡ s.tables.vifs → known.now.owner ≡ s.owner →
        known.now.pim ≡ s.tables.pim → known.now.asserts ≡ s.tables.asserts →
        known.now.moment ≡ s.now → reports.unread ≡ min (length s.unread) 64 →
        reports.last ≡ last_attempt s.attempts route.now.number →
        proxied ≡ passes_proxied s.tables.routes route.now (vif_on s.tables.vifs dev) →
        result ≡ judged s route.now dev ttl }
{
    let verdict = judge(known.vifs.as_slice(), proxied, route, dev, ttl);
    decided(known, reports, route, verdict)
}

/// The packets that wait of this source and group.
pub fn group_of(waiting: &[Group], src: Addr, dst: Addr) -> Option<Group>
    ensures same { option_map awaiting result ≡ awaiting_of (map awaiting waiting.now) src dst }
    ensures group { AreGroups waiting.now → IfSome result IsGroup }
{
    for g in waiting {
        if g.src.0 == src.0 && g.dst.0 == dst.0 {
            return Some(*g);
        }
    }
    None
}

/// What becomes of a packet whose source and group have no waiting entry.
fn parks_new(known: &Known, limits: &Limits) -> Outcome
    ensures { result ≡ parks_new limits.now (state_of known.now) }
{
    if limits.unresolved as usize <= known.waiting.as_slice().len() {
        Outcome::Dropped(Cause::Entries)
    } else if known.owner.is_none() {
        Outcome::Dropped(Cause::NoDaemon)
    } else if MOST_UNREAD <= known.unread.as_slice().len() {
        Outcome::Dropped(Cause::Upcall)
    } else {
        Outcome::Parked
    }
}

/// What becomes of a packet that meets no entry, on a device that has a vif.
fn joins(known: &Known, limits: &Limits, flow: &Flow) -> Outcome
    requires { AreGroups known.now.waiting.items }
    ensures { result ≡ joins limits.now (state_of known.now)
        (awaiting_of (map awaiting known.now.waiting.items) flow.now.src flow.now.dst) }
{
    match group_of(known.waiting.as_slice(), flow.src, flow.dst) {
        None => parks_new(known, limits),
        Some(group) if MOST_HELD <= group.count => Outcome::Dropped(Cause::Packets),
        Some(_) => Outcome::Parked,
    }
}

/// What becomes of a packet that meets no entry.
fn unmet(known: &Known, limits: &Limits, flow: &Flow) -> Outcome
    requires { AreGroups known.now.waiting.items }
    ensures { result ≡ unmet limits.now (state_of known.now) flow.now
        (vif_on known.now.vifs.items flow.now.dev) }
{
    match vif_on(known.vifs.as_slice(), flow.dev) {
        None => Outcome::Dropped(Cause::NoVif),
        Some(_) => joins(known, limits, flow),
    }
}

/// What becomes of a packet.
pub fn outcome(known: &Known, limits: &Limits, flow: &Flow) -> Outcome
    requires vifs { AllByRecursion (λ v. v.vif < 32) known.now.vifs.items }
    requires groups { AreGroups known.now.waiting.items }
    ensures { result ≡ outcome_in limits.now (state_of known.now) flow.now }
{
    let (vifs, routes) = (known.vifs.as_slice(), &known.routes);
    match found(vifs, routes, flow.dev, flow.src, flow.dst) {
        None => unmet(known, limits, flow),
        Some(route) => {
            let reports = reports_of(known, &route);
            let proxied = passes_proxied(routes, &route, vif_on(vifs, flow.dev));
            judged(known, reports, proxied, &route, flow.dev, flow.ttl)
        }
    }
}
