//! What a control call would come to (ipmr.c, `ip_mroute_setsockopt`, `ip_mroute_getsockopt` and
//! `ipmr_ioctl`).

ghost use Rattle.std.specs.Prelude.{◌≡◌, ◌+◌, ◌||◌, List, None, length, not, IsTrue};
ghost use Rattle.mr_base.specs.declared.numbers.DaemonNo.{DaemonNo};
ghost use Rattle.mr_model.specs.declared.limits.Limits.{Limits};
ghost use Rattle.mr_model.specs.declared.reply.Reply.{Reply};
ghost use Rattle.mr_model.specs.declared.reply.Reply.TheVariants.{Good, Refused};
ghost use Rattle.mr_model.specs.declared.request.Request.TheVariants.{BadLength, VifCount};
ghost use Rattle.mr_model.specs.declared.request.Request.TheVariants.{SgCount};
ghost use Rattle.mr_model.specs.Answer.{error_of, is_admin, refused_by_tables};
ghost use Rattle.mr_model.specs.Granting.{sets_tables, what_of};
ghost use Rattle.mr_model.specs.State.{State, state, is_owner};
ghost use Rattle.mr_mfc.specs.Caches.{is_above};
ghost use Rattle.mr_kernel.specs.declared.plan.Plan.TheVariants.{Answer};
ghost use Rattle.mr_kernel.specs.Asking.{may_ask};
ghost use Rattle.mr_kernel.specs.Holding.{CountsFor};
ghost use Rattle.mr_kernel.specs.Plans.{plan, plan_by};
ghost use Rattle.mr_kernel.specs.Standing.{StandsFor};

use crate::deciding::is_owner;
use crate::live::Live;
use crate::plan::Plan;
use mr_base::{Addr, DaemonNo, Errno};
use mr_history::Journal;
use mr_model::{Limits, Reply, Request};

/// What MRT_VERSION reads.
pub const VERSION: u32 = 0x0305;

/// The option MRT_INIT, whose record has no check of access.
const MRT_INIT: u16 = 200;

/// Whether a daemon is an admin.
fn is_admin(limits: &Limits, daemon: DaemonNo) -> bool
    ensures { result ≡ is_admin limits.now daemon }
{
    if daemon.0 == 0 {
        return false;
    }
    let place = daemon.0 as usize - 1;
    let admins = limits.admins.0.as_slice();
    place < admins.len() && admins[place]
}

/// Whether a daemon may set something: it is the owner or an admin.
fn may_set(live: &Live, limits: &Limits, daemon: DaemonNo) -> bool
    ensures { (s : State) → live.now.owner ≡ s.owner →
        result ≡ (is_owner s daemon || is_admin limits.now daemon) }
{
    is_owner(live, daemon) || is_admin(limits, daemon)
}

/// Whether a daemon may ask for something that sets tables.
fn may_ask(live: &Live, limits: &Limits, daemon: DaemonNo, request: &Request) -> bool
    ensures { (s : State) → live.now.owner ≡ s.owner →
        result ≡ may_ask limits.now s daemon request.now }
{
    match request {
        Request::Finish => is_owner(live, daemon),
        _ => may_set(live, limits, daemon),
    }
}

/// A refused call.
fn refused(errno: Errno) -> Plan
    ensures { result ≡ Answer (Refused errno) }
{
    Plan::Answer(Reply::Refused(errno))
}

/// A request that sets tables, from who may ask for it.
fn change(live: &Live, daemon: DaemonNo, request: &Request, number: u32) -> Plan
    requires sets { IsTrue (sets_tables request.now) }
    requires above { IsTrue (is_above number live.now.tables.tables.routes) }
    ensures { (limits : Limits) (s : State) (value : Reply) → StandsFor limits s live.now →
        result ≡ plan_by number value (refused_by_tables limits s request.now)
        (what_of limits.devices s.tables (not (is_owner s daemon)) request.now) }
{
    match live.tables.would(request, is_owner(live, daemon), number) {
        Ok(change) => Plan::Tables(change),
        Err(errno) => refused(errno),
    }
}

/// A request that sets tables.
fn set(live: &Live, journal: &Journal, daemon: DaemonNo, request: &Request) -> Plan
    requires sets { IsTrue (sets_tables request.now) }
    requires stands { StandsFor journal.now.limits
        (state journal.now.limits journal.now.entries) live.now }
    ensures { result ≡ plan (record { limits = journal.now.limits; history = journal.now.entries })
        daemon request.now }
{
    if !may_ask(live, journal.limits(), daemon, request) {
        return refused(Errno::Access);
    }
    journal.facts();
    change(live, daemon, request, journal.len() + 1)
}

/// What the vif at an index has counted (SIOCGETVIFCNT).
fn vif_count(live: &Live, journal: &Journal, vif: u16) -> Plan
    requires stands { StandsFor journal.now.limits
        (state journal.now.limits journal.now.entries) live.now }
    requires counts { CountsFor live.now.tables.tables journal.now }
    ensures { (daemon : DaemonNo) → result
        ≡ plan (record { limits = journal.now.limits; history = journal.now.entries })
        daemon (VifCount vif) }
{
    let vifs = live.tables.vifs();
    if u16::from(vifs.maxvif()) <= vif {
        return refused(Errno::Invalid);
    }
    match journal.vif_totals(vif as u8) {
        None => refused(Errno::NotAvailable),
        Some(totals) => Plan::Answer(Reply::Vif(totals)),
    }
}

/// What the first entry of a source and group has counted (SIOCGETSGCNT).
#[tactic(auto, using(mr_tables::proofs::Found::named_entry))]
fn sg_count(live: &Live, journal: &Journal, src: Addr, dst: Addr) -> Plan
    requires stands { StandsFor journal.now.limits
        (state journal.now.limits journal.now.entries) live.now }
    requires counts { CountsFor live.now.tables.tables journal.now }
    ensures { (daemon : DaemonNo) → result
        ≡ plan (record { limits = journal.now.limits; history = journal.now.entries })
        daemon (SgCount src dst) }
{
    let Some(route) = live.tables.cache().find(src, dst, None) else {
        return refused(Errno::NotAvailable);
    };
    match journal.route_totals(route.number) {
        None => refused(Errno::NotAvailable),
        Some(totals) => Plan::Answer(Reply::Sg(totals)),
    }
}

/// A record of wrong length, of an option that can be set.
fn bad_length(live: &Live, limits: &Limits, daemon: DaemonNo, option: u16) -> Plan
    ensures { (s : State) → live.now.owner ≡ s.owner →
        result ≡ plan_by 0 Good (error_of limits.now s daemon (BadLength option)) None }
{
    if option == MRT_INIT || may_set(live, limits, daemon) {
        refused(Errno::Invalid)
    } else {
        refused(Errno::Access)
    }
}

/// What a daemon's call would come to.
pub fn would(live: &Live, journal: &Journal, daemon: DaemonNo, request: &Request) -> Plan
    requires stands { StandsFor journal.now.limits
        (state journal.now.limits journal.now.entries) live.now }
    requires counts { CountsFor live.now.tables.tables journal.now }
    ensures { result ≡ plan (record { limits = journal.now.limits; history = journal.now.entries })
        daemon request.now }
{
    match *request {
        Request::Init if live.owner.is_some() => refused(Errno::InUse),
        Request::Init => Plan::Answer(Reply::Good),
        Request::Unknown(_) if may_set(live, journal.limits(), daemon) => refused(Errno::NoOption),
        Request::Unknown(_) => refused(Errno::Access),
        Request::BadLength(option) => bad_length(live, journal.limits(), daemon, option),
        Request::GetVersion => Plan::Answer(Reply::Value(VERSION)),
        Request::GetPim => Plan::Answer(Reply::Value(u32::from(live.tables.pim()))),
        Request::GetAssert => Plan::Answer(Reply::Value(u32::from(live.tables.assert_on()))),
        Request::VifCount(vif) => vif_count(live, journal, vif),
        Request::SgCount { src, dst } => sg_count(live, journal, src, dst),
        Request::Finish => set(live, journal, daemon, request),
        Request::AddVif(_) => set(live, journal, daemon, request),
        Request::DelVif(_) => set(live, journal, daemon, request),
        Request::AddMfc(_) => set(live, journal, daemon, request),
        Request::DelMfc(_) => set(live, journal, daemon, request),
        Request::AddProxy(_) => set(live, journal, daemon, request),
        Request::DelProxy(_) => set(live, journal, daemon, request),
        Request::Pim(_) => set(live, journal, daemon, request),
        Request::Assert(_) => set(live, journal, daemon, request),
        Request::Flush(_) => set(live, journal, daemon, request),
    }
}
